//! What each element of a frame can be.

ghost use Rattle.std.specs.Prelude.{◌≡◌, IfOk, false, true};
ghost use Rattle.irig_codes.specs.Format.{has_sbs};
ghost use Rattle.irig_happenings.specs.{Letters.letters_of, Letters.named, Roles.roles_of};

use irig_codes::{Format, Kind};
use irig_explaining::Role;
use std::alloc::{AllocError, Global};

/// The roles of the elements of a format's frames.
pub fn roles_of(alloc: Global, format: Format) -> Result<Vec<Role>, AllocError>
    ensures { IfOk result (λ roles. roles.items ≡ roles_of format) }
{
    let control = format.has_control();
    let sbs = has_sbs(format.expression());
    let mut roles = Vec::new(alloc);
    let elements = letters(format.kind(), format.has_year());
    for letter in elements {
        roles.push(named(control, sbs, *letter))?;
    }
    Ok(roles)
}

/// Whether the expression of this number has straight binary seconds, in A and B alone.
fn has_sbs(expression: u8) -> bool
    ensures { result ≡ has_sbs expression }
{
    matches!(expression, 0 | 3 | 4 | 7)
}

/// The role that a letter names, if the expression has control functions and straight binary
/// seconds.
fn named(control: bool, sbs: bool, letter: u8) -> Role
    ensures { result ≡ named control sbs letter }
{
    match letter {
        b'P' => Role::Position,
        b'b' => Role::Bit,
        b'c' if control => Role::Bit,
        b's' if sbs => Role::Bit,
        _ => Role::Unused,
    }
}

/// The elements of a frame: position identifiers, bits (`b`), and those of control functions and of
/// straight binary seconds.
fn letters(kind: Kind, year: bool) -> &'static [u8; 100]
    ensures { result.now ≡ letters_of kind year }
{
    if year {
        with_year(kind)
    } else {
        without_year(kind)
    }
}

fn without_year(kind: Kind) -> &'static [u8; 100]
    ensures { result.now ≡ letters_of kind false }
{
    match kind {
        Kind::A => {
            b"Pbbbb.bbbPbbbb.bbb.Pbbbb.bb..Pbbbb.bbbbPbb...bbbbP\
            cccccccccPcccccccccPcccccccccPsssssssssPssssssss.P"
        }
        Kind::B => {
            b"Pbbbb.bbbPbbbb.bbb.Pbbbb.bb..Pbbbb.bbbbPbb.......P\
            cccccccccPcccccccccPcccccccccPsssssssssPssssssss.P"
        }
        Kind::E => {
            b"P.....bbbPbbbb.bbb.Pbbbb.bb..Pbbbb.bbbbPbb.......P\
            cccccccccPcccccccccPcccccccccPcccccccccPcccccccccP"
        }
        Kind::G => {
            b"Pbbbb.bbbPbbbb.bbb.Pbbbb.bb..Pbbbb.bbbbPbb...bbbbP\
            bbbb.....PcccccccccPcccccccccPcccccccccPcccccccccP"
        }
    }
}

fn with_year(kind: Kind) -> &'static [u8; 100]
    ensures { result.now ≡ letters_of kind true }
{
    match kind {
        Kind::A => {
            b"Pbbbb.bbbPbbbb.bbb.Pbbbb.bb..Pbbbb.bbbbPbb...bbbbP\
            bbbb.bbbbPcccccccccPcccccccccPsssssssssPssssssss.P"
        }
        Kind::B => {
            b"Pbbbb.bbbPbbbb.bbb.Pbbbb.bb..Pbbbb.bbbbPbb.......P\
            bbbb.bbbbPcccccccccPcccccccccPsssssssssPssssssss.P"
        }
        Kind::E => {
            b"P.....bbbPbbbb.bbb.Pbbbb.bb..Pbbbb.bbbbPbb.......P\
            bbbb.bbbbPcccccccccPcccccccccPcccccccccPcccccccccP"
        }
        Kind::G => {
            b"Pbbbb.bbbPbbbb.bbb.Pbbbb.bb..Pbbbb.bbbbPbb...bbbbP\
            bbbb.....Pbbbb.bbbbPcccccccccPcccccccccPcccccccccP"
        }
    }
}

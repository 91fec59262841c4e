//! What a run writes, and where, by the options `--out` and `--save`.

ghost use Rattle.std.specs.Prelude.{◌≡◌, IfOk, IsTrue, false, is_some, true};
ghost use Rattle.irig_guard.specs.Given.{IsApart, place_of, product_of};
ghost use Rattle.irig_files.specs.Apart.{LeadToOneFile};

use crate::chosen::Settings;
use irig_files::Disk;
use irig_guarding::Product;
use irig_text::ShelfFault;

/// Whether the path to write leads to the dump; false if no path is given. `Err`: the system does
/// not say where one of them leads.
pub fn is_over<D: Disk>(chosen: &Settings<'_>, disk: &D) -> Result<bool, ShelfFault>
    ensures apart { IsTrue D.is_told → IfOk result (λ over. over ≡ false
        → IsApart chosen.now (D.disk disk.now)) }
    ensures given { IfOk result (λ over. over ≡ true → is_some chosen.now.out ≡ true) }
    ensures over { IsTrue D.is_told → IfOk result (λ over. over ≡ true
        → LeadToOneFile (D.disk disk.now) chosen.now.track.now (place_of chosen.now)) }
{
    match chosen.out {
        Some(out) => disk.is_same(chosen.track, out),
        None => Ok(false),
    }
}

/// The path to write, which is that of `--out`.
pub fn place_of<'a>(chosen: &Settings<'a>) -> &'a str
    ensures { result.now ≡ place_of chosen.now }
{
    chosen.out.unwrap_or(chosen.track)
}

/// What is written: nothing without `--out`, with it the track, and with `--save` its journal, too.
pub fn product_of(chosen: &Settings<'_>) -> Product
    ensures { result ≡ product_of chosen.now }
{
    if chosen.out.is_none() {
        Product::Nothing
    } else if chosen.save {
        Product::Session
    } else {
        Product::Track
    }
}

//! The script that is printed: the lines that are kept, and the rest as comments.

ghost use Rattle.std.specs.Prelude.{◌≡◌, ◌++◌, ◌∷◌, [], ℕ, List, OnOk, Some};
ghost use Rattle.std.specs.List.{AllByRecursion};
ghost use Rattle.irig_guarding.specs.Printed.{AreRemarksOf, IsRemarkOf, Shows};
ghost use Rattle.irig_guarding.specs.{Guarded.IsRemark, Reasons.head_lines, Repair.Asks};
ghost use Rattle.irig_guarding.specs.Repair.{texts};
ghost use Rattle.irig_lines.specs.declared.command.Command.TheVariants as command;
ghost use Rattle.irig_script.specs.Obey.Run.{IsPlain, unlines};

use crate::commands::is_comment;
use crate::line::Line;
use crate::reason::Reason;
use crate::reason_text::put_reason;
use irig_safety::Shown;
use std::alloc::AllocError;

/// How many bytes of a line a comment keeps. With the number sign and the space it is less than the
/// 1000 bytes that a line of a script may have; the number itself is a choice.
const KEPT: usize = 900;

/// Prints a line, and a newline after it.
fn put_line(out: &mut Vec<u8>, line: &[u8]) -> Result<(), AllocError>
    ensures { OnOk result (out.new.items ≡ out.old.items ++ (line.now ++ 10 ∷ [])) }
{
    out.extend_from_slice(line)?;
    out.push(b'\n')?;
    Ok(())
}

/// Prints the comment that there is nothing to go by, if no frame of the recording reads well:
/// `fine` is those that do, as it was opened.
pub fn put_head(out: &mut Vec<u8>, fine: &[Shown]) -> Result<(), AllocError>
    ensures { OnOk result (out.new.items ≡ out.old.items ++ unlines (head_lines fine.now)) }
{
    if fine.is_empty() {
        put_line(
            out,
            b"# nothing to go by: no frame of the recording is fine",
        )
    } else {
        Ok(())
    }
}

/// Prints lines as they are, each with a newline after it.
fn put_lines(out: &mut Vec<u8>, lines: &[Line<'_>]) -> Result<(), AllocError>
    ensures text { OnOk result (out.new.items ≡ out.old.items ++ unlines (texts lines.now)) }
    ensures plain { AllByRecursion IsPlain (texts lines.now) }
{
    for line in lines {
        put_line(out, line.bytes)?;
    }
    Ok(())
}

/// Prints a line as a comment, and a newline.
fn put_comment(out: &mut Vec<u8>, line: &Line<'_>) -> Result<(), AllocError>
    ensures { OnOk result ((remark : List ℕ) × IsRemark remark
        × IsRemarkOf line.now.bytes.now remark
        × (out.new.items ≡ out.old.items ++ (remark ++ 10 ∷ []))) }
{
    if is_comment(line) {
        put_line(out, line.bytes)
    } else {
        put_as_comment(out, line)
    }
}

/// Prints a number sign, a space, the first 900 bytes of a line (all, if it has fewer) and a
/// newline.
fn put_as_comment(out: &mut Vec<u8>, line: &Line<'_>) -> Result<(), AllocError>
    requires { Asks command.Nothing line.now.bytes.now → ⊥ }
    ensures { OnOk result ((remark : List ℕ) × IsRemark remark
        × IsRemarkOf line.now.bytes.now remark
        × (out.new.items ≡ out.old.items ++ (remark ++ 10 ∷ []))) }
{
    let bytes = line.bytes;
    out.extend_from_slice(b"# ")?;
    put_line(out, &bytes[..bytes.len().min(KEPT)])
}

/// Prints lines as comments, each as `put_comment` does.
fn put_comments(out: &mut Vec<u8>, lines: &[Line<'_>]) -> Result<(), AllocError>
    ensures { OnOk result ((remarks : List (List ℕ)) × AllByRecursion IsRemark remarks
        × AreRemarksOf (texts lines.now) remarks
        × (out.new.items ≡ out.old.items ++ unlines remarks)) }
{
    for line in lines {
        put_comment(out, line)?;
    }
    Ok(())
}

/// Prints a repair: its lines as they are if it was kept, else as `put_dropped` does.
pub fn put_repair(
    out: &mut Vec<u8>,
    repair: &[Line<'_>],
    dropped: Option<Reason>,
) -> Result<(), AllocError>
    ensures { OnOk result (Shows (texts repair.now) dropped out.old.items out.new.items) }
{
    match dropped {
        None => put_lines(out, repair),
        Some(reason) => put_dropped(out, repair, reason),
    }
}

/// Prints a repair that was dropped: the reason as a comment, and after that its lines as comments.
fn put_dropped(out: &mut Vec<u8>, repair: &[Line<'_>], reason: Reason) -> Result<(), AllocError>
    ensures { OnOk result (Shows (texts repair.now) (Some reason) out.old.items out.new.items) }
{
    put_reason(out, reason)?;
    put_comments(out, repair)
}

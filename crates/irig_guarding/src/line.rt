//! A line of a proposed script.

ghost use Rattle.irig_script.specs.Obey.Run.{IsPlain};

/// A line of a script, without the newline that ends it: a part of the script's text.
#[derive(Drop)]
pub struct Line<'a> {
    pub bytes: &'a [u8],
    ghost plain: { IsPlain bytes.now },
}

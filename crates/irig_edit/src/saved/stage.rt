//! How far a saved session's text has been given.

ghost use Rattle.std.specs.Prelude.{◌≡◌, ◌↔◌, IsTrue};
ghost use Rattle.irig_edit.specs.Saved.Stages.{next_stage};
ghost use Rattle.irig_edit.specs.declared.saved.stage.Stage.TheVariants.{Over};

/// What comes next of a saved session's text.
#[derive(Clone, Copy)]
pub(crate) enum Stage {
    /// The dump, and then the journal's lines before its steps.
    Dump,
    /// The steps that can be undone.
    Back,
    /// The steps that can be redone.
    On,
    Over,
}

impl Stage {
    pub(crate) fn is_over(self) -> bool
        ensures { IsTrue result ↔ self ≡ Over }
    {
        matches!(self, Stage::Over)
    }

    pub(crate) fn next(self) -> Stage
        ensures { result ≡ next_stage self }
    {
        match self {
            Stage::Dump => Stage::Back,
            Stage::Back => Stage::On,
            Stage::On | Stage::Over => Stage::Over,
        }
    }
}

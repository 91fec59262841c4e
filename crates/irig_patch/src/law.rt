//! What holds of patches as scripts.

ghost use Rattle.irig_patch.specs.Commented.{CommentsJoin, CommentsMake, CommentsStop};
ghost use Rattle.irig_patch.specs.Commented.{CommentsWrite};
ghost use Rattle.irig_patch.specs.Joined.{PatchesJoin};
ghost use Rattle.irig_patch.specs.Scripts.{AsLong, PatchesMake, PatchesStop, PatchesWrite};

/// Does nothing. Its contract: the text of a patch, run as a script on a session of the recording
/// before, makes of it the one after, by one step for each stretch.
pub fn patches_are_scripts()
    ensures make { PatchesMake }
    ensures stop { PatchesStop }
    ensures write { PatchesWrite }
    ensures joined { PatchesJoin }
    ensures as_long { AsLong }
{}

/// Does nothing, too: with its comments the text of a patch does what it does without them.
pub fn commented_patches_are_scripts()
    ensures make { CommentsMake }
    ensures stop { CommentsStop }
    ensures write { CommentsWrite }
    ensures joined { CommentsJoin }
{}

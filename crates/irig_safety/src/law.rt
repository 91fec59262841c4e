//! What holds of frames that are safe.

ghost use Rattle.irig_safety.specs.Meaning.{SafeMeans};

/// Does nothing: each former frame is among the new ones or is mended by one, and each other new
/// one is borne out.
pub fn safe_frames_are_kept_or_borne_out()
    ensures { SafeMeans }
{}

//! Laws of frames and of replies. What a framer gives doesn't depend on how the bytes were cut into
//! pieces.
ghost use Rattle.std.specs.Prelude.{ℕ, List};
ghost use Rattle.session_proto.specs.Blanks.{BlankIsGap};
ghost use Rattle.session_proto.specs.Pieces.{FramesAreOfPieces};
ghost use Rattle.session_proto.specs.Replies.{OneReply};
ghost use Rattle.session_proto.specs.Sessions.{OneFraming, StandsAtFirst, StandsFed, StandsAfterStatement, StandsAwaiting, StandsAfterBody, NeedsAtEnd, CleanAtEnd, TooLongAtEnd, OverlongStays, OneNext};

/// Which statements have a body after them. The laws hold whatever the rule is.
pub trait BodyRule {
    /// The statement of this text has a body of so many bytes.
    ghost Wants: { List ℕ → ℕ → Type 0 };
}

/// The text of a frame is texts, comments and single bytes, and each such text is one.
pub fn frames_are_of_pieces()
    ensures { FramesAreOfPieces }
{}

/// A text is blank exactly if it is space and comments.
pub fn blank_is_gap()
    ensures { BlankIsGap }
{}

/// The bytes of a session have one list of frames and one rest.
pub fn one_framing<R: BodyRule>()
    ensures { OneFraming R.Wants }
{}

/// The bytes left and the body awaited say what a call of `next` gives, and what it leaves.
pub fn one_next()
    ensures { OneNext }
{}

/// A new framer is before the first frame.
pub fn stands_at_first<R: BodyRule>()
    ensures { StandsAtFirst R.Wants }
{}

/// How far a framer is doesn't change when bytes come.
pub fn stands_fed<R: BodyRule>()
    ensures { StandsFed R.Wants }
{}

/// A statement without a body is the next frame.
pub fn stands_after_statement<R: BodyRule>()
    ensures { StandsAfterStatement R.Wants }
{}

/// A framer that is asked for a body is before it.
pub fn stands_awaiting<R: BodyRule>()
    ensures { StandsAwaiting R.Wants }
{}

/// A statement is the next frame with the body that is given.
pub fn stands_after_body<R: BodyRule>()
    ensures { StandsAfterBody R.Wants }
{}

/// If `next` needs more bytes, all frames of the bytes so far were given, and none is too long.
pub fn needs_at_end<R: BodyRule>()
    ensures { NeedsAtEnd R.Wants }
{}

/// If `next` needs more bytes, the framer is clean exactly if the bytes so far end clean.
pub fn clean_at_end<R: BodyRule>()
    ensures { CleanAtEnd R.Wants }
{}

/// If a frame is too long, no bytes that come make a further frame.
pub fn too_long_at_end<R: BodyRule>()
    ensures { TooLongAtEnd R.Wants }
{}

/// A frame that is too long stays so when bytes come.
pub fn overlong_stays()
    ensures { OverlongStays }
{}

/// Different replies have different bytes.
pub fn one_reply()
    ensures { OneReply }
{}

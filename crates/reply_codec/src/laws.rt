//! The law of the format. A law is its contract: its body does nothing.
ghost use Rattle.dirfrag_codec.specs.Grammar.{HasOneMeaning, HasOneSpelling, NothingFollows, IsReaderOf};
ghost use Rattle.reply_codec.specs.ReplyBytes.{SpellsReply};
ghost use Rattle.reply_codec.specs.Values.{reply_from};

/// Bytes spell at most one reply, a reply has one spelling, and no spelling begins another. `reply_from` is the reply
/// that bytes spell.
pub fn replies_are_spelled_once()
    ensures meaning { HasOneMeaning SpellsReply }
    ensures spelling { HasOneSpelling SpellsReply }
    ensures ended { NothingFollows SpellsReply }
    ensures value { IsReaderOf SpellsReply reply_from }
{}

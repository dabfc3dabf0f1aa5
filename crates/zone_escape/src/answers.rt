//! Replies, each once for the caller and once for the entry.
ghost use Rattle.std.specs.Prelude.{◌≡◌};
ghost use Rattle.zone_escape.specs.Answers.{IsPlain};

use zone_model::Reply;

/// A reply and an equal one, but for the room of its lists.
#[derive(Drop)]
pub struct Answer {
    pub reply: Reply,
    pub copy: Reply,
}

/// An equal reply, of one that has no list. It takes no memory.
fn copy_plain(reply: &Reply) -> Reply
    requires { IsPlain reply.now }
    ensures { result ≡ reply.now }
{
    match reply {
        Reply::Done => Reply::Done,
        Reply::Block(id) => Reply::Block(*id),
        Reply::Number(number) => Reply::Number(*number),
        Reply::Busy => Reply::Busy,
        Reply::Begun => Reply::Begun,
        Reply::Finalised(id) => Reply::Finalised(*id),
        Reply::Stats(stats) => Reply::Stats(*stats),
        Reply::Misuse(misuse) => Reply::Misuse(*misuse),
        Reply::Condemned(_) | Reply::Reclaimed(_) | Reply::Settled { .. } => unreachable!(),
    }
}

/// A reply without a list, twice.
pub(crate) fn twice(reply: Reply) -> Answer
    requires { IsPlain reply }
    ensures reply { result.reply ≡ reply }
    ensures copy { result.copy ≡ reply }
{
    let copy = copy_plain(&reply);
    Answer { reply, copy }
}

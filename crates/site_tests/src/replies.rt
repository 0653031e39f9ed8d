use compile_core::PuppetLanguage;
use pp_values::{Memory, Text};
use res_core::Request;
use sample_values::says;
use site_core::{Reply, ReplyOf};
use site_docs::write_reply;
use std::alloc::Global;
use std::test::Fail;

/// A reply that has numbers alone.
#[derive(Clone, Copy)]
enum NumberReply {
    Full(u32),
    Deactivated(u32),
    Memory,
}

fn reply_of(reply: NumberReply) -> Reply<PuppetLanguage> {
    match reply {
        NumberReply::Full(length) => ReplyOf::HistoryFull { length },
        NumberReply::Deactivated(entry) => ReplyOf::Deactivated { entry },
        NumberReply::Memory => ReplyOf::Memory,
    }
}

/// Whether the reply to a deactivation of node `a` is told so.
fn reply_says(alloc: Global, index: u32, reply: NumberReply, want: &str) -> Result<bool, Memory> {
    let request = Request::Deactivate(Text::from_str(alloc, "a")?);
    let reply = reply_of(reply);
    says(
        write_reply(alloc, &PuppetLanguage, index, &request, &reply),
        want,
    )
}

/// Replies that no short run comes to, and one that does.
const REPLIES: [(u32, NumberReply, &str); 4] = [
    (
        4294967295,
        NumberReply::Full(3),
        "{\"full\":3,\"reply\":4294967295}\n",
    ),
    (2, NumberReply::Full(9), "{\"full\":9,\"reply\":2}\n"),
    (5, NumberReply::Memory, "{\"memory\":true,\"reply\":5}\n"),
    (
        2,
        NumberReply::Deactivated(9),
        "{\"entry\":9,\"reply\":2}\n",
    ),
];

#[test]
fn replies_are_told(rt: HostRuntime) -> Result<(), Fail> {
    for (index, reply, want) in REPLIES.iter() {
        assert!(rt; reply_says(rt.alloc(), *index, *reply, want)?, "{want}");
    }
    Ok(())
}

ghost use Rattle.std.specs.Prelude.{◌≡◌, ◌<◌, ◌≤◌, length, drop, Some, IfOk, MatchOption, MatchResult};
ghost use Rattle.messages.specs.Message.{contents, message_case, message_fault, listed_fault, WritesBack};
ghost use Rattle.messages.specs.Named.{of_message};
ghost use Rattle.messages.specs.Told.{message_told};
ghost use Rattle.sources.specs.Head.{head_of};
ghost use Rattle.sources.specs.Records.{arc_in, pair_in, listed_by};

use super::checked::Checked;
use super::records::Records;
use super::write::bytes_behind;
use graph::CaseSource;
use messages::MessageFault;

/// The case in a message.
pub type Message<'a> = Checked<'a, [u8; 9], [[u8; 9]; 2]>;

/// What stands in front of the arcs.
#[derive(Clone, Copy)]
struct Head {
    behind: u32,
    version: u8,
    end: u16,
    fixed: u16,
    pairs: u8,
}

/// The head of a message, and what follows it.
fn split_head(bytes: &[u8]) -> Option<(Head, &[u8])>
    ensures { MatchOption result (length bytes.now < 10) (λ p. (10 ≤ length bytes.now) × (p.0 ≡ head_of bytes.now) × (p.1.now ≡ drop 10 bytes.now)) }
{
    let (head, arcs) = bytes.split_first_chunk::<10>()?;
    let [b0, b1, b2, b3, version, e0, e1, f0, f1, pairs] = *head;
    let head = Head {
        behind: u32::from_be_bytes([b0, b1, b2, b3]),
        version,
        end: u16::from_be_bytes([e0, e1]),
        fixed: u16::from_be_bytes([f0, f1]),
        pairs,
    };
    Some((head, arcs))
}

/// Checks the head of a message, and cuts what follows it into records.
fn cut(bytes: &[u8]) -> Result<Records<'_, [u8; 9], [[u8; 9]; 2]>, MessageFault>
    ensures { MatchResult result (λ r. (listed_by arc_in pair_in r ≡ contents bytes.now) × (message_fault bytes.now ≡ listed_fault (contents bytes.now))) (λ f. message_fault bytes.now ≡ Some (of_message f)) }
{
    let Some((head, arcs)) = split_head(bytes) else {
        return Err(MessageFault::Short(bytes.len()));
    };
    if head.version != 1 {
        return Err(MessageFault::Version);
    }
    // Kept: the sizes that a case's check tests too, since a message is refused by the byte that tells one.
    let end = head.end as usize;
    if end == 0 || end > 511 {
        return Err(MessageFault::Events);
    }
    let fixed = head.fixed as usize;
    if fixed > 2048 {
        return Err(MessageFault::TooManyFixedArcs);
    }
    let pairs = head.pairs as usize;
    if pairs > 60 {
        return Err(MessageFault::TooManyPairs);
    }
    let behind = bytes_behind(head.fixed, head.pairs) as usize;
    if head.behind as usize != behind || bytes.len() != 4 + behind {
        return Err(MessageFault::Length);
    }
    let (fixed, arms) = arcs.as_chunks::<9>().0.split_at(fixed);
    let pairs = arms.as_chunks::<2>().0;
    Ok(Records { end, fixed, pairs })
}

/// Checks a message: its head, then each arc.
pub fn check_message(bytes: &[u8]) -> Result<(), MessageFault>
    ensures told { message_told result ≡ message_fault bytes.now }
    ensures law { WritesBack bytes.now }
{
    Message::read(bytes).map(|_| ())
}

impl<'a> Checked<'a, [u8; 9], [[u8; 9]; 2]> {
    /// The case in a message, if the message passes its check.
    pub fn read(bytes: &'a [u8]) -> Result<Message<'a>, MessageFault>
        ensures told { message_told result ≡ message_fault bytes.now }
        ensures means { IfOk result (λ s. ⟦<Message<'a> as CaseSource>⟧.means s ≡ message_case bytes.now) }
        ensures law { WritesBack bytes.now }
    {
        Ok(Checked::of(cut(bytes)?)?)
    }

    /// The case in a message; over bytes that the check refuses, the empty case.
    pub fn over(bytes: &'a [u8]) -> Message<'a>
        ensures { ⟦<Message<'a> as CaseSource>⟧.means result ≡ message_case bytes.now }
    {
        Message::read(bytes).unwrap_or(Checked::empty())
    }
}

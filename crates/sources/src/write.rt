ghost use Rattle.std.specs.Prelude.{◌≡◌, ◌+◌, ◌*◌, ◌≤◌, length};
ghost use Rattle.messages.specs.Message.{arc_bytes, arcs_bytes, pairs_bytes, message, ReadsBack};
ghost use Rattle.graph.specs.Views.{arc_of, arc_found};
ghost use Rattle.sources.specs.Written.{put_at, head_bytes, found_bytes, Written};

use graph::{Arc, CaseSource};
use messages::MessageFault;

/// How many bytes of a message follow those that tell this number.
pub(crate) fn bytes_behind(fixed: u16, pairs: u8) -> u32
    ensures { result ≡ 6 + 9 * fixed + 18 * pairs }
{
    6 + 9 * u32::from(fixed) + 18 * u32::from(pairs)
}

/// How many bytes the case takes as a message.
pub fn message_len<S: CaseSource>(source: &S) -> usize
    ensures { result ≡ length (message (S.CaseSource.means source.now)) }
{
    10 + 9 * source.fixed_count() + 18 * source.pair_count()
}

/// What stands in front of the arcs.
fn head(end: u16, fixed: u16, pairs: u8) -> [u8; 10]
    ensures { result ≡ head_bytes end fixed pairs }
{
    let [b0, b1, b2, b3] = bytes_behind(fixed, pairs).to_be_bytes();
    let [e0, e1] = end.to_be_bytes();
    let [f0, f1] = fixed.to_be_bytes();
    [b0, b1, b2, b3, 1, e0, e1, f0, f1, pairs]
}

/// An arc in nine bytes.
fn arc_bytes(arc: Arc) -> [u8; 9]
    ensures { result ≡ arc_bytes (arc_of arc) }
{
    let [f0, f1] = arc.from.to_be_bytes();
    let [t0, t1] = arc.to.to_be_bytes();
    let [w0, w1, w2, w3] = arc.weight.to_be_bytes();
    [f0, f1, t0, t1, w0, w1, w2, w3, arc.mark]
}

/// Writes over what stands from a place on.
fn put(out: &mut [u8], at: usize, piece: &[u8])
    requires { at + length piece.now ≤ length out.old }
    ensures { out.new ≡ put_at out.old at piece.now }
{
    let end = at + piece.len();
    out[at..end].copy_from_slice(piece);
}

/// Writes an arc, if there is one.
fn put_arc(out: &mut [u8], at: usize, arc: Option<Arc>)
    requires { at + 9 ≤ length out.old }
    ensures { out.new ≡ put_at out.old at (found_bytes (arc_found arc)) }
{
    if let Some(arc) = arc {
        put(out, at, &arc_bytes(arc));
    }
}

/// Writes the fixed arcs after the head.
fn put_fixed<S: CaseSource>(source: &S, out: &mut [u8])
    requires { 10 + 9 * length (S.CaseSource.means source.now).fixed ≤ length out.old }
    ensures { out.new ≡ put_at out.old 10 (arcs_bytes (S.CaseSource.means source.now).fixed) }
{
    // Kept: once chunks that were lent to be written are back, a proof knows only how long the slice is.
    for number in 0..source.fixed_count() {
        put_arc(out, 10 + 9 * number, source.fixed_arc(number));
    }
}

/// Writes the arms of each pair, from a place on.
fn put_pairs<S: CaseSource>(source: &S, out: &mut [u8], from: usize)
    requires { from + 18 * length (S.CaseSource.means source.now).pairs ≤ length out.old }
    ensures { out.new ≡ put_at out.old from (pairs_bytes (S.CaseSource.means source.now).pairs) }
{
    // Kept: as for the fixed arcs.
    for pair in 0..source.pair_count() {
        let at = from + 18 * pair;
        put_arc(out, at, source.arm(pair, 1));
        put_arc(out, at + 9, source.arm(pair, 2));
    }
}

/// Writes the case as a message into the front of `out`, and answers the message's length; the rest stays. Memory that is
/// too short is refused, and nothing is written.
pub fn write_message<S: CaseSource>(source: &S, out: &mut [u8]) -> Result<usize, MessageFault>
    ensures written { Written (S.CaseSource.means source.now) out.old out.new result }
    ensures law { ReadsBack (S.CaseSource.means source.now) }
{
    let fixed = source.fixed_count();
    let pairs = source.pair_count();
    let needed = message_len(source);
    if out.len() < needed {
        return Err(MessageFault::NoRoom(needed));
    }
    put(
        out,
        0,
        &head(source.end() as u16, fixed as u16, pairs as u8),
    );
    put_fixed(source, out);
    put_pairs(source, out, 10 + 9 * fixed);
    Ok(needed)
}

//! The lines of nets.
ghost use Rattle.std.specs.Prelude.{◌≡◌, ◌<◌, ◌∷◌, codes, length, true};
ghost use Rattle.std.specs.List.{flat_map};
ghost use Rattle.cvc_law.specs.Family.{interval_at};
ghost use Rattle.cvc_law.specs.Network.{fixed_at, nets};
ghost use Rattle.cvc_text.specs.Lines.{line};
ghost use Rattle.cvc_text.specs.Putting.{Puts, stand};
ghost use Rattle.cvc_report.specs.Report.{net_line, net_lines, net_words};

use cvc_base::NetId;
use cvc_flat::{Flat, Pieces};
use cvc_io::{Sink, WriteFailed};
use cvc_law::{Circuit, Family};
use cvc_text::{TextBuffer, Word};

// The line of the net of this name, which is given in pieces.
fn put_named<'a, K: Sink>(
    circuit: &Circuit,
    family: &Family,
    n: NetId,
    name: &'a [&'a [u8]],
    text: &mut TextBuffer,
    sink: &mut K,
) -> Result<(), WriteFailed>
    requires net { n.0 < nets circuit.now }
    requires family { length family.now ≡ nets circuit.now }
    ensures { Puts result (stand (K.written sink.old) text.old (K.faults sink.old)) (stand (K.written sink.new) text.new (K.faults sink.new))
        (line (codes "net" ∷ flat_map (λ w. w.now) name.now ∷ net_words (fixed_at circuit.now n.0) (interval_at family.now n.0))) }
{
    let net = Word::Text(b"net");
    match circuit.fixed(n) {
        Some(fixed) => {
            let declared = Word::Text(b"declared");
            let (low, high) = (Word::Bound(Some(fixed.low)), Word::Bound(Some(fixed.high)));
            text.put_line(&[net, Word::Name(name), declared, low, high], sink)
        }
        None => {
            let interval = family.interval(n);
            let (low, high) = (Word::Bound(interval.low), Word::Bound(interval.high));
            text.put_line(&[net, Word::Name(name), low, high], sink)
        }
    }
}

// The line of a net.
fn put_net<'f, K: Sink>(
    circuit: &Circuit,
    flat: &'f Flat,
    family: &Family,
    n: NetId,
    pieces: &mut Pieces<'f>,
    text: &mut TextBuffer,
    sink: &mut K,
) -> Result<(), WriteFailed>
    requires net { n.0 < nets circuit.now }
    requires listed { nets circuit.now ≡ length flat.now.list.nets }
    requires family { length family.now ≡ nets circuit.now }
    ensures { Puts result (stand (K.written sink.old) text.old (K.faults sink.old)) (stand (K.written sink.new) text.new (K.faults sink.new))
        (net_line circuit.now flat.now.list family.now n.0) }
{
    flat.net_pieces(n, pieces);
    put_named(circuit, family, n, pieces.as_slice(), text, sink)
}

// The lines of all nets.
fn put_all_nets<K: Sink>(
    circuit: &Circuit,
    flat: &Flat,
    family: &Family,
    text: &mut TextBuffer,
    sink: &mut K,
) -> Result<(), WriteFailed>
    requires listed { nets circuit.now ≡ length flat.now.list.nets }
    requires family { length family.now ≡ nets circuit.now }
    ensures { Puts result (stand (K.written sink.old) text.old (K.faults sink.old)) (stand (K.written sink.new) text.new (K.faults sink.new))
        (net_lines circuit.now flat.now.list family.now true) }
{
    let mut pieces = Pieces::new();
    for n in 0..circuit.nets() {
        put_net(circuit, flat, family, NetId(n), &mut pieces, text, sink)?;
    }
    Ok(())
}

/// The lines of all nets, where they are asked for.
pub(crate) fn put_nets<K: Sink>(
    circuit: &Circuit,
    flat: &Flat,
    family: &Family,
    with_nets: bool,
    text: &mut TextBuffer,
    sink: &mut K,
) -> Result<(), WriteFailed>
    requires listed { nets circuit.now ≡ length flat.now.list.nets }
    requires family { length family.now ≡ nets circuit.now }
    ensures { Puts result (stand (K.written sink.old) text.old (K.faults sink.old)) (stand (K.written sink.new) text.new (K.faults sink.new))
        (net_lines circuit.now flat.now.list family.now with_nets) }
{
    if with_nets {
        put_all_nets(circuit, flat, family, text, sink)
    } else {
        Ok(())
    }
}

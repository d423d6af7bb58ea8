ghost use Rattle.std.specs.Prelude.{◌≡◌, ◌<◌, ◌≤◌, ◌↔◌, IsTrue, None, Some, Err, IfOk, IfSome, IsErr, OnErr, OnOk, length, option_map, take};
ghost use Rattle.record_io.specs.Calls.{AsksUpTo, HasSize, OnlyCounts};
ghost use Rattle.chunk_reader.specs.declared.reasons.Fault.{Fault};
ghost use Rattle.record_append.specs.AppendAnswers.{MayBeKeptTo};
ghost use Rattle.record_append.specs.Devices.{EndsAt};
ghost use Rattle.record_append.specs.Grown.{IsKeptTo, IsRefusedToGrow, IsUnrefused, RefusesFor};

use chunk_reader::{Fault, Front, VerifyEnd, Why, verify_front};
use record_io::{Device, Failed};

/// Judges the old file of a device, of `size` bytes, which were told, and answers up to which place it is kept.
///
/// # Errors
///
/// `Refused` where the file is refused, and `Store` where the device failed.
pub(crate) fn judge<G: Device>(device: &mut G, size: u64, cut: bool) -> Result<u64, VerifyEnd>
    requires sized { HasSize (G.told device.old) size }
    ensures kept { IfOk result (λ place. IfSome (G.bytes device.old) (λ file. IsUnrefused cut file × IsKeptTo file place)) }
    ensures place { IfOk result (λ place. MayBeKeptTo size place) }
    ensures sized { IfSome (G.bytes device.old) (λ file. size ≡ length file) }
    ensures refused { (fault : Fault) → result ≡ Err (VerifyEnd.Refused fault)
        → (0 < size) × RefusesFor cut fault.why × IfSome (G.bytes device.old) (λ file. IsRefusedToGrow cut file fault) }
    ensures device { AsksUpTo G.bytes G.told G.handed G.name G.faults (result ≡ Err VerifyEnd.Store)
        size device.old device.new }
{
    let front = verify_front(device, size)?;
    match refusal(&front, size, cut) {
        Some(fault) => Err(VerifyEnd::Refused(fault)),
        None => Ok(front.totals.bytes),
    }
}

/// The fault with which a file of `size` bytes is refused that is well formed so far, if it is.
fn refusal(front: &Front, size: u64, cut: bool) -> Option<Fault>
    ensures refused { IfSome result (λ fault. (front.now.fault ≡ Some fault) × (0 < size) × RefusesFor cut fault.why) }
    ensures taken { result ≡ None → IfSome front.now.fault (λ fault. 0 < size → ¬ RefusesFor cut fault.why) }
{
    match front.fault {
        Some(fault) if size > 0 && refuses(fault.why, cut) => Some(fault),
        _ => None,
    }
}

/// Whether a fault for this reason refuses an old file.
fn refuses(why: Why, cut: bool) -> bool
    ensures { IsTrue result ↔ RefusesFor cut why }
{
    match why {
        Why::NoSignature => true,
        Why::Short | Why::Truncated => false,
        _ => !cut,
    }
}

/// Cuts off what stands behind a place, if anything does.
pub(crate) fn cut_to<G: Device>(device: &mut G, size: u64, place: u64) -> Result<(), Failed>
    requires told { G.told device.old ≡ Some size }
    requires within { place ≤ size }
    ensures leaves { OnOk result (G.bytes device.new ≡ option_map (take place) (G.bytes device.old)) }
    ensures kept { OnErr result (G.bytes device.new ≡ G.bytes device.old) }
    ensures ends { OnOk result (EndsAt place size (G.bytes device.new) (G.told device.new)) }
    ensures still_told { IfSome (G.told device.new) (λ told. told ≡ size) }
    ensures same_handed { G.handed device.new ≡ G.handed device.old }
    ensures counts { OnlyCounts G.name G.faults (IsErr result) device.old device.new }
{
    if place < size {
        device.cut(place)?;
    }
    Ok(())
}

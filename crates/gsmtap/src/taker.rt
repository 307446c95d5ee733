//! What takes the packets of a capture file, one after the other.

ghost use Rattle.std.specs.Prelude.{List, IfErr, OnOk};
ghost use Rattle.gsmtap.specs.File.{Packet};
ghost use Rattle.gsmtap.specs.PieceSteps.{packet_of};
ghost use Rattle.gsmtap.specs.Taken.{Taking};
ghost use Rattle.gsmtap.specs.Taker.{CanTake, IsPacketFault, TakesPacket};

use crate::fault::AirFault;
use crate::pieces::Captured;

/// What becomes of the packets of a capture file, which come one after another.
pub trait TakesPackets {
    /// What it takes packets for, which no packet changes.
    ghost Given: { Type 0 };

    /// What is known after packets.
    ghost State: { Type 0 };

    /// How packets are taken for this.
    ghost taking: { Given → Taking State };

    /// For this it has these packets, in order.
    ghost HasTaken: { Given → List Packet → Self → Type 0 };

    /// Takes a packet, before which so many came.
    ///
    /// # Errors
    ///
    /// Returns the fault of the packet, and out of memory.
    fn take(&mut self, before: u64, packet: &Captured) -> Result<(), AirFault>
        requires { CanTake taking HasTaken self.old before }
        ensures taken { OnOk result (TakesPacket taking HasTaken self.old self.new before (packet_of packet.now)) }
        ensures fault { IfErr result (IsPacketFault taking HasTaken self.old before (packet_of packet.now)) };
}

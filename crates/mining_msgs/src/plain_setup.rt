//! A setup for mining that tells nothing of its device.

ghost use Rattle.std.specs.Prelude.{◌≡◌, ◌++◌, OnOk};
ghost use Rattle.sv2_messages.specs.Messages.{message_frame};
ghost use Rattle.sv2_messages.specs.Tables.{mining_table};
ghost use Rattle.mining_msgs.specs.PlainSetup.{plain_setup};

use crate::message::Mining;
use crate::setup::SetupConnection;
use std::alloc::AllocError;

/// Appends the frame of a SetupConnection for mining with version 2, these flags, empty texts and
/// port 0.
pub fn put_plain_setup(out: &mut Vec<u8>, flags: u32) -> Result<(), AllocError>
    ensures { OnOk result (out.new.items
        ≡ out.old.items ++ message_frame mining_table (plain_setup flags)) }
{
    // In a tuple, since no proof covers a local of an enum whose structs borrow.
    let setup = (
        Mining::SetupConnection(SetupConnection {
            protocol: 0,
            min_version: 2,
            max_version: 2,
            flags,
            endpoint_host: "",
            endpoint_port: 0,
            vendor: "",
            hardware_version: "",
            firmware: "",
            device_id: "",
        }),
    );
    setup.0.frame(out)
}

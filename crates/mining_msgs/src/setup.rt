//! The messages with which every connection begins.

ghost use Rattle.std.specs.Prelude.{◌≡◌};
ghost use Rattle.sv2_messages.specs.declared.kinds.TheConstants as kinds;
ghost use Rattle.sv2_messages.specs.Tables.{mining_table};
ghost use Rattle.sv2_messages.specs.Writing.{AreFields};
ghost use Rattle.mining_msgs.specs.Seen.{mining_message, ReadsMining};

use crate::message::Mining;
use sv2_messages::{Field, FieldReader, MsgError};

/// Asks for a protocol and its features (Stratum V2, "SetupConnection").
#[derive(Clone, Copy, Debug)]
pub struct SetupConnection<'a> {
    /// 0 for mining, 1 for job declaration, 2 for template distribution.
    pub protocol: u8,
    pub min_version: u16,
    pub max_version: u16,
    /// One bit for each feature.
    pub flags: u32,
    pub endpoint_host: &'a str,
    pub endpoint_port: u16,
    pub vendor: &'a str,
    pub hardware_version: &'a str,
    pub firmware: &'a str,
    pub device_id: &'a str,
}

impl SetupConnection<'_> {
    /// The fields in their order.
    pub(crate) fn fields(&self) -> [Field<'_>; 10]
        ensures { AreFields mining_table (mining_message (Mining.SetupConnection self.now)) result }
    {
        [
            Field::U8(self.protocol),
            Field::U16(self.min_version),
            Field::U16(self.max_version),
            Field::U32(self.flags),
            Field::Str255(self.endpoint_host),
            Field::U16(self.endpoint_port),
            Field::Str255(self.vendor),
            Field::Str255(self.hardware_version),
            Field::Str255(self.firmware),
            Field::Str255(self.device_id),
        ]
    }
}

#[tactic(auto, unfolding(sv2_messages::specs::Reading::values_of))]
pub(crate) fn read_setup_connection<'a>(payload: &'a [u8]) -> Result<Mining<'a>, MsgError>
    ensures { ReadsMining kinds.SETUP_CONNECTION payload.now result }
{
    let mut fields = FieldReader::new(payload);
    let message = SetupConnection {
        protocol: fields.u8()?,
        min_version: fields.u16()?,
        max_version: fields.u16()?,
        flags: fields.u32()?,
        endpoint_host: fields.str255()?,
        endpoint_port: fields.u16()?,
        vendor: fields.str255()?,
        hardware_version: fields.str255()?,
        firmware: fields.str255()?,
        device_id: fields.str255()?,
    };
    fields.end()?;
    Ok(Mining::SetupConnection(message))
}

/// Accepts the connection (Stratum V2, "SetupConnection.Success").
#[derive(Clone, Copy, Debug)]
pub struct SetupConnectionSuccess {
    pub used_version: u16,
    /// One bit for each feature.
    pub flags: u32,
}

impl SetupConnectionSuccess {
    /// The fields in their order.
    pub(crate) fn fields(&self) -> [Field<'_>; 2]
        ensures { AreFields mining_table
            (mining_message (Mining.SetupConnectionSuccess self.now)) result }
    {
        [Field::U16(self.used_version), Field::U32(self.flags)]
    }
}

#[tactic(auto, unfolding(sv2_messages::specs::Reading::values_of))]
pub(crate) fn read_setup_connection_success<'a>(payload: &'a [u8]) -> Result<Mining<'a>, MsgError>
    ensures { ReadsMining kinds.SETUP_CONNECTION_SUCCESS payload.now result }
{
    let mut fields = FieldReader::new(payload);
    let message = SetupConnectionSuccess {
        used_version: fields.u16()?,
        flags: fields.u32()?,
    };
    fields.end()?;
    Ok(Mining::SetupConnectionSuccess(message))
}

/// Refuses the connection; the flags are those that are not taken (Stratum V2,
/// "SetupConnection.Error").
#[derive(Clone, Copy, Debug)]
pub struct SetupConnectionError<'a> {
    /// One bit for each feature.
    pub flags: u32,
    pub error_code: &'a str,
}

impl SetupConnectionError<'_> {
    /// The fields in their order.
    pub(crate) fn fields(&self) -> [Field<'_>; 2]
        ensures { AreFields mining_table
            (mining_message (Mining.SetupConnectionError self.now)) result }
    {
        [Field::U32(self.flags), Field::Str255(self.error_code)]
    }
}

#[tactic(auto, unfolding(sv2_messages::specs::Reading::values_of))]
pub(crate) fn read_setup_connection_error<'a>(payload: &'a [u8]) -> Result<Mining<'a>, MsgError>
    ensures { ReadsMining kinds.SETUP_CONNECTION_ERROR payload.now result }
{
    let mut fields = FieldReader::new(payload);
    let message = SetupConnectionError {
        flags: fields.u32()?,
        error_code: fields.str255()?,
    };
    fields.end()?;
    Ok(Mining::SetupConnectionError(message))
}

ghost use Rattle.std.specs.Prelude.{◌≡◌, ◌+◌, ◌*◌, ◌/◌, ◌%◌, ◌^◌, true, false};
ghost use Rattle.zns_types.specs.Fields.{bits, bit};
ghost use Rattle.sqe_codec.specs.Commands.{command, cid_of};
ghost use Rattle.sqe_codec.specs.Ranges.{IsDwordLength};
ghost use Rattle.sqe_codec.specs.Writing as spelled;

use crate::cmd::Cmd;
use crate::layouts::{first, lba_entry, page_entry};
use crate::sqe::Sqe;

// The number of dwords in `bytes` bytes, less one.
fn dwords_less_one(bytes: u64) -> u32
    requires { IsDwordLength bytes }
    ensures value { result ≡ spelled.dwords_less_one bytes }
    ensures back { 4 * (result + 1) ≡ bytes }
    ensures halves { 4 * (result % 2 ^ 16 + 2 ^ 16 * (result / 2 ^ 16) + 1) ≡ bytes }
{
    (bytes / 4 - 1) as u32
}

// Dword 13 of a Zone Management Send.
fn send_dword(action: u8, all: bool, option: bool) -> u32
    ensures value { result ≡ spelled.send_dword action all option }
    ensures action { bits 7 0 result ≡ action }
    ensures all { bit 8 result ≡ all }
    ensures option { bit 9 result ≡ option }
{
    u32::from(action) + (u32::from(all) << 8) + (u32::from(option) << 9)
}

// Dword 13 of a Zone Management Receive.
fn receive_dword(action: u8, filter: u8, partial: bool) -> u32
    ensures value { result ≡ spelled.receive_dword action filter partial }
    ensures action { bits 7 0 result ≡ action }
    ensures filter { bits 15 8 result ≡ filter }
    ensures partial { bit 16 result ≡ partial }
{
    u32::from(action) + (u32::from(filter) << 8) + (u32::from(partial) << 16)
}

// Dword 10 of a Get Log Page; `low` is the low half of the number of dwords less one.
fn log_dword(page: u8, retain: bool, low: u16) -> u32
    ensures value { result ≡ spelled.log_dword page retain low }
    ensures page { bits 7 0 result ≡ page }
    ensures retain { bit 15 result ≡ retain }
    ensures low { bits 31 16 result ≡ low }
{
    u32::from(page) + (u32::from(retain) << 15) + (u32::from(low) << 16)
}

/// The entry of a Zone Management Send.
#[tactic(auto, unfolding(crate::specs::Commands::io_command))]
pub fn send(cid: u16, nsid: u32, slba: u64, action: u8, all: bool, option: bool) -> Sqe
    ensures bytes { result.bytes ≡ spelled.entry_of (Cmd.Send nsid slba action all option) cid }
    ensures command { command false result.bytes ≡ Cmd.Send nsid slba action all option }
    ensures cid { cid_of result.bytes ≡ cid }
{
    let how = send_dword(action, all, option);
    lba_entry(first(0x79, cid), nsid, slba, 0, how)
}

/// The entry of a Zone Management Receive.
#[tactic(auto, unfolding(crate::specs::Commands::io_command))]
pub fn receive(
    cid: u16,
    nsid: u32,
    slba: u64,
    bytes: u64,
    action: u8,
    filter: u8,
    partial: bool,
) -> Sqe
    requires { IsDwordLength bytes }
    ensures bytes { result.bytes
        ≡ spelled.entry_of (Cmd.Receive nsid slba bytes action filter partial) cid }
    ensures command { command false result.bytes
        ≡ Cmd.Receive nsid slba bytes action filter partial }
    ensures cid { cid_of result.bytes ≡ cid }
{
    let how = receive_dword(action, filter, partial);
    lba_entry(first(0x7a, cid), nsid, slba, dwords_less_one(bytes), how)
}

/// The entry of a Get Log Page.
#[tactic(auto, unfolding(crate::specs::Commands::admin_command))]
pub fn log_page(cid: u16, nsid: u32, page: u8, bytes: u64, offset: u64, retain: bool) -> Sqe
    requires { IsDwordLength bytes }
    ensures bytes { result.bytes ≡ spelled.entry_of (Cmd.GetLog nsid page bytes offset retain) cid }
    ensures command { command true result.bytes ≡ Cmd.GetLog nsid page bytes offset retain }
    ensures cid { cid_of result.bytes ≡ cid }
{
    let dwords = dwords_less_one(bytes);
    let what = log_dword(page, retain, (dwords % 0x1_0000) as u16);
    page_entry(first(0x02, cid), nsid, what, dwords >> 16, offset)
}

/// The entry of an Identify.
#[tactic(auto, unfolding(crate::specs::Commands::admin_command))]
pub fn identify(cid: u16, nsid: u32, cns: u8, csi: u8) -> Sqe
    ensures bytes { result.bytes ≡ spelled.entry_of (Cmd.Identify nsid cns csi) cid }
    ensures command { command true result.bytes ≡ Cmd.Identify nsid cns csi }
    ensures cid { cid_of result.bytes ≡ cid }
{
    let csi = u32::from(csi) << 24;
    page_entry(first(0x06, cid), nsid, u32::from(cns), csi, 0)
}

/// The entry of a Set Features.
#[tactic(auto, unfolding(crate::specs::Commands::admin_command))]
pub fn set_feature(cid: u16, feature: u8, value: u32) -> Sqe
    ensures bytes { result.bytes ≡ spelled.entry_of (Cmd.SetFeature feature value) cid }
    ensures command { command true result.bytes ≡ Cmd.SetFeature feature value }
    ensures cid { cid_of result.bytes ≡ cid }
{
    page_entry(first(0x09, cid), 0, u32::from(feature), value, 0)
}

/// The entry of an excursion.
#[tactic(auto, unfolding(crate::specs::Commands::admin_command))]
pub fn excursion(cid: u16, nsid: u32, slba: u64, kind: u8) -> Sqe
    ensures bytes { result.bytes ≡ spelled.entry_of (Cmd.Excursion nsid slba kind) cid }
    ensures command { command true result.bytes ≡ Cmd.Excursion nsid slba kind }
    ensures cid { cid_of result.bytes ≡ cid }
{
    lba_entry(first(0xc0, cid), nsid, slba, 0, u32::from(kind))
}

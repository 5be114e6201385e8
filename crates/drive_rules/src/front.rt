ghost use Rattle.std.specs.Prelude.{◌≡◌, ◌≤◌};
ghost use Rattle.zns_types.specs.Rows.{first_holding};
ghost use Rattle.drive_rules.specs.Tables.{flush_rows, write_front, read_front, append_front, send_front, receive_rows, identify_rows, log_rows, feature_rows, excursion_front, front_rows};
ghost use Rattle.sqe_codec.specs.Ranges.{HasRanges};

use crate::listed::is_listed;
use crate::sent::sent_deed;
use sqe_codec::Cmd;
use zns_types::{Code, Geometry};

// The codes of the Zone Management Send actions that open a zone and that commit blocks.
const OPEN: u8 = 0x03;

const COMMIT: u8 = 0x11;

// The log page of changed zones, and the feature Asynchronous Event Configuration.
const CHANGED_ZONE_LIST: u8 = 0xbf;

const EVENT_CONFIGURATION: u8 = 0x0b;

fn check_flush(nsid: u32) -> Option<Code>
    ensures { result ≡ first_holding (flush_rows nsid) }
{
    (nsid != 1 && nsid != u32::MAX).then_some(Code::INVALID_NAMESPACE)
}

// The rows of a Write, and of a Read before its zones are looked at.
fn check_blocks(g: &Geometry, nsid: u32, slba: u64, blocks: u32) -> Option<Code>
    ensures { result ≡ first_holding (write_front g.now.fields nsid slba blocks) }
{
    let count = u64::from(blocks);
    if nsid != 1 {
        return Some(Code::INVALID_NAMESPACE);
    }
    if count * u64::from(g.block_len()) > g.greatest_transfer() {
        return Some(Code::INVALID_FIELD);
    }
    if count > g.blocks() || slba > g.blocks() - count {
        return Some(Code::LBA_OUT_OF_RANGE);
    }
    None
}

fn check_read(g: &Geometry, nsid: u32, slba: u64, blocks: u32) -> Option<Code>
    requires { 1 ≤ blocks }
    ensures { result ≡ first_holding (read_front g.now.fields nsid slba blocks) }
{
    if let Some(code) = check_blocks(g, nsid, slba, blocks) {
        return Some(code);
    }
    let first = g.zone_of(slba);
    let last = g.zone_of(slba + u64::from(blocks) - 1);
    if first != last && g.fields().flags % 2 == 0 {
        return Some(Code::ZONE_BOUNDARY_ERROR);
    }
    None
}

fn check_append(g: &Geometry, nsid: u32, zslba: u64, blocks: u32) -> Option<Code>
    ensures { result ≡ first_holding (append_front g.now.fields nsid zslba blocks) }
{
    let bytes = u64::from(blocks) * u64::from(g.block_len());
    if nsid != 1 {
        return Some(Code::INVALID_NAMESPACE);
    }
    if bytes > g.greatest_transfer() {
        return Some(Code::INVALID_FIELD);
    }
    if zslba >= g.blocks() {
        return Some(Code::LBA_OUT_OF_RANGE);
    }
    if g.offset_of(zslba) != 0 {
        return Some(Code::INVALID_FIELD);
    }
    if g.fields().zasl != 0 && bytes > 1 << (12 + g.fields().zasl) {
        return Some(Code::INVALID_FIELD);
    }
    None
}

fn check_send(
    g: &Geometry,
    nsid: u32,
    slba: u64,
    action: u8,
    all: bool,
    option: bool,
) -> Option<Code>
    ensures { result ≡ first_holding (send_front g.now.fields nsid slba action all option) }
{
    if nsid != 1 {
        return Some(Code::INVALID_NAMESPACE);
    }
    if sent_deed(action, option, 0).is_none() {
        return Some(Code::INVALID_FIELD);
    }
    if all {
        let is_for_one = action == COMMIT || (action == OPEN && option);
        return is_for_one.then_some(Code::INVALID_FIELD);
    }
    if slba >= g.blocks() {
        return Some(Code::LBA_OUT_OF_RANGE);
    }
    if action != COMMIT && g.offset_of(slba) != 0 {
        return Some(Code::INVALID_FIELD);
    }
    None
}

fn check_receive(
    g: &Geometry,
    nsid: u32,
    slba: u64,
    bytes: u64,
    action: u8,
    filter: u8,
) -> Option<Code>
    ensures { result ≡ first_holding (receive_rows g.now.fields nsid slba bytes action filter) }
{
    if nsid != 1 {
        return Some(Code::INVALID_NAMESPACE);
    }
    if bytes > g.greatest_transfer() || action != 0 || filter > 7 {
        return Some(Code::INVALID_FIELD);
    }
    (slba >= g.blocks()).then_some(Code::LBA_OUT_OF_RANGE)
}

fn check_identify(g: &Geometry, nsid: u32, cns: u8, csi: u8) -> Option<Code>
    ensures { result ≡ first_holding (identify_rows g.now.fields nsid cns csi) }
{
    if !is_listed(cns, csi) {
        return Some(Code::INVALID_FIELD);
    }
    ((cns == 0x00 || cns == 0x05) && nsid != 1).then_some(Code::INVALID_NAMESPACE)
}

fn check_log(g: &Geometry, nsid: u32, page: u8, bytes: u64, offset: u64) -> Option<Code>
    ensures { result ≡ first_holding (log_rows g.now.fields nsid page bytes offset) }
{
    if page != CHANGED_ZONE_LIST {
        return Some(Code::INVALID_LOG_PAGE);
    }
    if nsid != 1 {
        return Some(Code::INVALID_NAMESPACE);
    }
    (bytes > g.greatest_transfer() || offset != 0).then_some(Code::INVALID_FIELD)
}

fn check_feature(feature: u8) -> Option<Code>
    ensures { result ≡ first_holding (feature_rows feature) }
{
    (feature != EVENT_CONFIGURATION).then_some(Code::INVALID_FIELD)
}

fn check_excursion(g: &Geometry, nsid: u32, slba: u64, kind: u8) -> Option<Code>
    ensures { result ≡ first_holding (excursion_front g.now.fields nsid slba kind) }
{
    if nsid != 1 {
        return Some(Code::INVALID_NAMESPACE);
    }
    if kind < 1 || kind > 5 {
        return Some(Code::INVALID_FIELD);
    }
    if slba >= g.blocks() {
        return Some(Code::LBA_OUT_OF_RANGE);
    }
    (g.offset_of(slba) != 0).then_some(Code::INVALID_FIELD)
}

/// The code by which a command is refused, from the rows that don't depend on a zone.
pub fn check_front(g: &Geometry, command: Cmd) -> Option<Code>
    requires { HasRanges command }
    ensures { result ≡ first_holding (front_rows g.now.fields command) }
{
    match command {
        Cmd::Flush { nsid } => check_flush(nsid),
        Cmd::Write { nsid, slba, blocks } => check_blocks(g, nsid, slba, blocks),
        Cmd::Read { nsid, slba, blocks } => check_read(g, nsid, slba, blocks),
        Cmd::Append {
            nsid,
            zslba,
            blocks,
        } => check_append(g, nsid, zslba, blocks),
        Cmd::Send {
            nsid,
            slba,
            action,
            all,
            option,
        } => check_send(g, nsid, slba, action, all, option),
        Cmd::Receive {
            nsid,
            slba,
            bytes,
            action,
            filter,
            ..
        } => check_receive(g, nsid, slba, bytes, action, filter),
        Cmd::Identify { nsid, cns, csi } => check_identify(g, nsid, cns, csi),
        Cmd::GetLog {
            nsid,
            page,
            bytes,
            offset,
            ..
        } => check_log(g, nsid, page, bytes, offset),
        Cmd::SetFeature { feature, .. } => check_feature(feature),
        Cmd::GetFeature { feature } => check_feature(feature),
        Cmd::Event => None,
        Cmd::Excursion { nsid, slba, kind } => check_excursion(g, nsid, slba, kind),
        Cmd::Unknown { .. } => Some(Code::INVALID_OPCODE),
    }
}

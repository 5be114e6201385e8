ghost use Rattle.std.specs.Prelude.{◌≡◌, ◌<◌, ◌≤◌, ◌^◌, length};
ghost use Rattle.std.specs.List.{All};
ghost use Rattle.drive_rules.specs.Reports.{changed_page, first_bytes};
ghost use Rattle.changed_log.specs.Marks.{told_to};
ghost use Rattle.drive_book.specs.Outcomes.{plain_success, request_outcome};
ghost use Rattle.solo_drive.specs.Noticing.{read_outcome, with_page, after_log, after_feature, feature_outcome, after_ask};

use changed_log::{ChangedLog, Waited};
use drive_book::{Book, Outcome};
use zns_types::{Code, Geometry};

// The bit of the asynchronous event configuration that enables notices of changed zones.
const NOTICES: u32 = 1 << 27;

// The length of the changed zone log page in bytes.
const PAGE: usize = 4096;

// Fills `out` with the start of the page of changed zones, and with zeros after the page.
fn fill_page(log: &ChangedLog, g: &Geometry, out: &mut [u8])
    requires zones { All (λ z. z < g.now.fields.zones) log.now }
    ensures { out.new ≡ first_bytes (length out.old) (changed_page g.now.fields log.now) }
{
    let mut page = [0; PAGE];
    log.page(g, &mut page);
    let given = out.len().min(PAGE);
    out.fill(0);
    out[..given].copy_from_slice(&page[..given]);
}

/// Serves a Get Log Page that no row refuses: the first `bytes` bytes of the page of changed zones
/// go to the start of `out`, and the rest of `out` is unchanged. Unless `retain` is set, the log is
/// emptied, and no event stays masked or pending.
pub fn read_log(book: &mut Book, g: &Geometry, bytes: u64, retain: bool, out: &mut [u8]) -> Outcome
    requires zones { All (λ z. z < g.now.fields.zones) book.old.log }
    requires few { bytes < 2 ^ 32 }
    requires room { bytes ≤ length out.old }
    ensures outcome { result ≡ read_outcome bytes }
    ensures book { book.new ≡ after_log retain book.old }
    ensures read { out.new ≡ with_page g.now.fields bytes book.old out.old }
{
    fill_page(&book.log, g, &mut out[..bytes as usize]);
    if !retain {
        book.log.clear();
        book.events.read_clear();
    }
    Outcome {
        len: bytes as u32,
        ..Outcome::done()
    }
}

/// Serves a Set Features of the asynchronous event configuration. Bit 27 enables notices of changed
/// zones.
pub fn set_feature(book: &mut Book, value: u32) -> Outcome
    ensures outcome { result ≡ plain_success }
    ensures book { book.new ≡ after_feature value book.old }
{
    book.events.enable(value / NOTICES % 2 == 1);
    Outcome::done()
}

/// Serves a Get Features of the asynchronous event configuration.
pub fn get_feature(book: &Book) -> Outcome
    ensures { result ≡ feature_outcome book.now.events }
{
    let dw0 = if book.events.enabled() { NOTICES } else { 0 };
    Outcome {
        dw0,
        ..Outcome::done()
    }
}

/// Serves an Asynchronous Event Request with command identifier `cid`: it returns a pending event,
/// waits for one, or is refused if four requests already wait.
pub fn ask(book: &mut Book, cid: u16) -> Outcome
    ensures outcome { result ≡ request_outcome (told_to book.old.events) }
    ensures book { book.new ≡ after_ask cid book.old }
{
    match book.events.wait(cid) {
        Waited::Fired => Outcome::told(),
        Waited::Limit => Outcome::refused(Code::EVENT_LIMIT_EXCEEDED),
        Waited::Kept => Outcome {
            waits: true,
            ..Outcome::told()
        },
    }
}

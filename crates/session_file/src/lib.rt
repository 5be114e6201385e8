//! Sessions and results as bytes.
#![tactic(auto)]

mod feed;
mod feed_err;
mod fields;
mod file_err;
mod given;
mod header;
pub mod laws;
mod order;
mod ordering;
mod putting;
mod reading;
mod records;
mod result_file;
mod results;
mod session;
mod streaming;
mod writing;

pub use feed::Feed;
pub use feed_err::FeedErr;
pub use file_err::{FileErr, Reason, Which};
pub use given::{Begun, First, Given};
pub use header::{HEADER_LEN, Header, read_header};
pub use order::Order;
pub use ordering::{read_order, read_order_after};
pub use reading::{read, read_front};
pub use result_file::ResultFile;
pub use results::write_result;
pub use session::Session;
pub use streaming::{begin_from, read_from};
pub use writing::write;
pub use zone_model::{Act, Acts, Journal, Replies, Reply};

//! Lists of addresses as people write them, with networks, addresses, ranges and comments: read line by line.
#![tactic(auto)]

mod address_text;
mod bytes;
pub mod cause;
mod cause_bytes;
mod cause_follows;
mod cause_parts;
mod cause_text;
mod cause_words;
mod comment;
pub mod content_line;
pub mod entry;
mod front;
mod list;
pub mod list_text;
mod mark;
mod number;
mod reader;
pub mod reading;
pub mod refused;
pub mod report;
mod set_lines;
mod word;

pub use address_text::ip_addr_text;
pub use bytes::{are_digits, has_byte};
pub use cause::{Cause, NotEntry, cause_of};
pub use cause_parts::is_entry;
pub use cause_words::{has_mask_word, is_netmask};
pub use comment::{comment_start, contents_of};
pub use content_line::{ContentLine, LineHandler, ListFailure, has_lines, read_lines};
pub use entry::{Entry, parse_address, read_entry};
pub use list::read_set;
pub use list_text::{ListText, read_list_text};
pub use mark::{MOST_READS, begin_input, skip_mark};
pub use number::next_number;
pub use reader::{Collector, FoundEntry, LineReader, first_line_of_bytes, read_text};
pub use reading::{ReadFailure, Reading, read_bytes};
pub use refused::{
    Explanation, LineCause, Refusals, Refused, RefusedLine, RefusedLines, RefusedPart,
};
pub use report::{
    NO_ENTRY, Part, explain_cause, name_of, report_line, report_more, report_refused, report_since,
    write_parts,
};
pub use set_lines::{network_lines, range_lines};
pub use word::{cut_word, first_blank};

//! The facts about one network, as text or as JSON.
ghost use Rattle.std.specs.Prelude.{◌≡◌, None, IfSome};
ghost use Rattle.ipnet_c.specs.FactReplies.{form_number, IsFormNumber, IsInfoReply};

use crate::buffers::write_to_buffer;
use crate::statuses::{OUT_OF_MEMORY, UNKNOWN_OPTION, status_of};
use ipnet::IpNet;
use ipnet_info::{FactsForm, facts_text};
use std::alloc::Global;

/// Returns the form of facts with this number, or `None` if there is none.
fn read_form(form: u32) -> Option<FactsForm>
    ensures some { IfSome result (λ f. form ≡ form_number f) }
    ensures none { result ≡ None → ¬ (IsFormNumber form) }
{
    match form {
        0 => Some(FactsForm::Lines),
        1 => Some(FactsForm::Json),
        _ => None,
    }
}

/// Writes the facts about the network of these bytes into the buffer, and the length of the text into `count`: its
/// masks, its first and last host, how many addresses and hosts it has, its address as a number, its reverse zones (RFC
/// 1035, RFC 3596), and the rows of IANA's registries of special-purpose addresses that share an address with it (RFC
/// 6890).
///
/// `form` is 0 for lines, as `netset info` prints them, and 1 for a JSON object on one line.
///
/// Returns 0; 4 if the buffer is too short, with the length needed in `count`; 17 for another number of `form`; 6, 7 or
/// 8 if the bytes of the network have this fault; 3 if memory runs out. The buffer changes only at 0, `count` only at 0
/// and 4.
///
/// ```text
/// 0, 10, 0, 0, 9, 24 and 0    0, and "network: 10.0.0.0/24\naddress: 10.0.0.9\n.."
/// 0, 10, 0, 0, 9, 24 and 1    0, and "{\"network\":\"10.0.0.0/24\",\"address\":\"10.0.0.9\",.."
/// ```
#[unsafe(no_mangle)]
pub extern "C" fn ipnet_info(
    alloc: Global,
    network: &[u8],
    form: u32,
    buffer: &mut [u8],
    count: &mut usize,
) -> u32
    ensures { IsInfoReply form network.now buffer.old buffer.new count.old count.new result }
{
    let Some(form) = read_form(form) else {
        return UNKNOWN_OPTION;
    };
    let network = match IpNet::from_bytes(network) {
        Ok(network) => network,
        Err(error) => return status_of(error),
    };
    match facts_text(alloc, &network, form) {
        Ok(text) => write_to_buffer(text.as_bytes(), buffer, count),
        Err(_) => OUT_OF_MEMORY,
    }
}

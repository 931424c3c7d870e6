//! Messages: templates with parameters in braces, messages by key, and the text that a template
//! becomes (Jakarta Bean Validation 3.0, "Message interpolation").
#![tactic(auto)]

mod built_in;
mod expanding;
mod expansion;
mod fault;
mod laws;
mod lengths;
mod messages;
mod rings;
mod showing;
mod table;
mod template;
mod user_messages;

pub use fault::{MessageFault, MessagesAt, PlacedMessageFault};
pub use laws::{
    attributes_are_not_read, full_text_is_made, key_becomes_its_text, pieces_are_spelled,
    plain_text_stays,
};
pub use messages::Messages;
pub use rings::{key_name, key_ring};
pub use template::{check_template, template_fits};

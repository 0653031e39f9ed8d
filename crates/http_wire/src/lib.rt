//! Messages of HTTP: the next request of a source, however it cuts its bytes, and a response to a sink.
#![tactic(auto)]

mod fields;
mod filling;
mod heads;
mod places;
mod reading;
mod request;
mod response;

pub use fields::number;
pub use reading::read_request;
pub use request::{H, HttpRequest, MOST_BODY, MOST_FIELDS, MOST_HEAD, WireStop};
pub use response::{HttpResponse, WriteStop, write_response};

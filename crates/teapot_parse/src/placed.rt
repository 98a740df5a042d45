use teapot_lines::{Cut, Form};

/// A line of a protocol: its number and its form.
#[derive(Drop)]
pub struct Placed {
    pub line: u32,
    pub form: Form<Cut>,
}

use handler_code::{Code, Door, OpCode, Rest};
use tw_base::Value;

/// What is changed in the code of a protocol.
#[derive(Clone, Copy, Debug)]
pub enum Change {
    Op(usize, OpCode),
    Door(usize, Door),
    Rest(usize, Rest),
    NoLastDoor,
}

/// Makes the change, if the code has what is changed.
pub fn make(change: Change, code: &mut Code) {
    // For the proof alone: it looks for the type of values in an op.
    let _none: Option<Value> = None;
    match change {
        Change::Op(at, op) => {
            if at < code.ops.len() {
                code.ops.set(at, op);
            }
        }
        Change::Door(number, door) => {
            if number < code.doors.len() {
                code.doors.set(number, door);
            }
        }
        Change::Rest(number, rest) => {
            if number < code.rests.len() {
                code.rests.set(number, rest);
            }
        }
        Change::NoLastDoor => {
            let _last = code.doors.pop();
        }
    }
}

//! Repeats a call that was refused memory.

/// The result of a call, or of its repetition if memory was refused.
macro_rules! again {
    ($rt:expr, $call:expr) => {
        match $call {
            Ok(answer) => answer,
            Err(_) => $call.expect($rt, "once more"),
        }
    };
}

pub(crate) use again;

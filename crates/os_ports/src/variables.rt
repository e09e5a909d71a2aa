// The variables of the environment.
use std::rt::Env;

/// With the value `1` each failed call on a port is explained on standard error.
pub const EXPLAIN: &str = "PIR_EXPLAIN";

/// With the value `1` this program ends with its standard input, while it waits for a guest. Children have it.
pub const CHILD: &str = "PIR_CHILD";

/// Whether the variable has the value `1`.
pub fn is_one<R: Env>(rt: &R, name: &str) -> bool {
    let mut value = [0; 1];
    matches!(rt.var(name, &mut value), Ok(1)) && value == *b"1"
}

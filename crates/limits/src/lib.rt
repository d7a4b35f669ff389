// The two sizes of limits.rs that bound a text and a bytes literal. Each has a function that ties it to its definition.
#![tactic(auto)]

ghost use Rattle.std.specs.Prelude.{◌≡◌};
ghost use Rattle.limits.specs.Limits.{max_message_size, max_bytes_literal_length};

// The longest text that is read, in bytes.
pub const MAX_MESSAGE_SIZE: usize = 67_108_864;

// The default bytes limit: the decoded length of one bytes literal.
pub const MAX_BYTES_LITERAL_LENGTH: usize = MAX_MESSAGE_SIZE;

// The longest text, by its definition.
pub fn message_limit() -> usize
    ensures { result ≡ max_message_size }
{
    MAX_MESSAGE_SIZE
}

// The default bytes limit, by its definition.
pub fn default_bytes_limit() -> usize
    ensures { result ≡ max_bytes_literal_length }
{
    MAX_BYTES_LITERAL_LENGTH
}

// A run over a stream of commands: why it ended.
#[derive(Clone, Copy)]
pub enum Stop {
    // Every byte was used.
    End,
    // The last command is incomplete; it is left for when more bytes are there.
    Cut,
    // The output has no room for another line; the commands from there on are left.
    Full,
    // A command was refused by 6, and the stream is over.
    Six,
}

// An event as a line says it. A label is a part of the line's own bytes.

#[derive(Clone, Copy, PartialEq, Eq, Debug)]
pub enum Event<'a> {
    // The task of this id and label is polled.
    ProcessTask(u64, &'a [u8]),
    // A stop with this value.
    Stop(i32),
    // A stop signal is taken.
    Stopped,
}

// What is wrong with a line that is no event.
#[derive(Clone, Copy, PartialEq, Eq, Debug)]
pub enum Trouble {
    // It is none of the three forms.
    NoEvent,
    // Its id is no number of 64 bits.
    NoId,
    // Its stop value is no signed number of 32 bits.
    NoValue,
}

// The first line that is no event; lines count from 1.
#[derive(Clone, Copy, PartialEq, Eq, Debug)]
pub struct Misread {
    pub line: usize,
    pub trouble: Trouble,
}

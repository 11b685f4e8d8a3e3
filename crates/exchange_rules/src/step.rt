// What a byte or a tick leaves, on the line of any unit; C is how it can close the open command.
use crate::line::Line;
use refusals::Reply;

#[derive(Clone, Copy)]
pub struct Step<C> {
    pub line: Line,
    pub reply: Reply<C>,
}

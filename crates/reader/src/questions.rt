// The question of each edge, which the text store receives.
ghost use Rattle.reader.specs.Values.{asked};

use crate::edges::Step;
use crate::paths::put_question;
use draft::Draft;
use store::Stop;

// Makes the question of an edge of its command, and has the store receive it.
pub(crate) struct Asking;

impl Step for Asking {
    ghost step = { asked };

    fn take(d: &mut Draft, e: usize) -> Result<(), Stop> {
        let edge = &mut d.edges[e];
        put_question(
            &mut edge.question,
            &d.known.files,
            &edge.reads,
            &edge.outputs,
        )?;
        d.known.texts.ask(&edge.question)?;
        Ok(())
    }
}

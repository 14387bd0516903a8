// The names of a call: each of a file that can be read or written, and no file that is written under two names.
use tillbox_storage::messages::Reported;
use tillbox_storage::names::{check_apart, check_output, check_plain, check_replaced, with_beside};

// The names of the files of a call. Those that it has not are empty.
#[derive(Clone, Copy)]
pub struct Names<'a> {
    pub table: &'a [u8],
    pub input: &'a [u8],
    pub output: &'a [u8],
    pub checkpoint: Option<&'a [u8]>,
}

impl Names<'_> {
    // Looks whether what is read is of plain files, an output of one that can be written, and no file that is written another one of the
    // call.
    pub fn are_apart(self, rt: &HostRuntime) -> Result<(), Reported> {
        check_plain(rt, self.table)?;
        check_plain(rt, self.input)?;
        check_output(rt, self.output)?;
        self.is_not_read(rt, self.output)?;
        let Some(checkpoint) = self.checkpoint else {
            return Ok(());
        };
        self.is_apart(rt, checkpoint)?;
        self.beside_apart(rt, checkpoint, b".new")?;
        self.beside_apart(rt, checkpoint, b".lock")
    }

    // Looks whether a file that is written is another one than what is read.
    fn is_not_read(self, rt: &HostRuntime, name: &[u8]) -> Result<(), Reported> {
        check_apart(rt, name, self.table)?;
        check_apart(rt, name, self.input)
    }

    // Looks whether a file that stands for a checkpoint is another one than the files of its job.
    fn is_apart(self, rt: &HostRuntime, name: &[u8]) -> Result<(), Reported> {
        check_replaced(rt, name)?;
        self.is_not_read(rt, name)?;
        check_apart(rt, name, self.output)
    }

    // The same of the file beside a checkpoint that has an ending.
    fn beside_apart(
        self,
        rt: &HostRuntime,
        checkpoint: &[u8],
        ending: &[u8],
    ) -> Result<(), Reported> {
        with_beside(checkpoint, ending, |name| self.is_apart(rt, name))
    }
}

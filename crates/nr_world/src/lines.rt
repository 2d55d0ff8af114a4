//! The lines of a script, one after another.

ghost use Rattle.std.specs.Prelude.{OnOk};
ghost use Rattle.nr_script.specs.declared.script.Line.TheVariants as lines;
ghost use Rattle.nr_world.specs.private.Stands.{MakesLine, MakesLines};
ghost use Rattle.nr_world.specs.private.Within.{CanMake, CanMakeAll};

use crate::copying::copy_cred;
use crate::steps::Procedure;
use crate::world::World;
use nr_rpc::Cred;
use nr_script::Line;
use nr_xdr::Memory;
use std::alloc::Global;

impl World {
    /// Rounds, as long as something moves. Each makes a mark, so memory runs out before their number does.
    fn drain(&mut self) -> Result<(), Memory>
        requires { CanMake lines.Drain self.old }
        ensures { OnOk result (MakesLine lines.Drain self.old self.new) }
    {
        for _round in 0..u64::MAX {
            if self.is_still() {
                return Ok(());
            }
            self.round()?;
        }
        Err(Memory)
    }

    fn cred(&mut self, alloc: Global, client: u32, cred: &Cred) -> Result<(), Memory>
        requires { CanMake (lines.Cred client cred.now) self.old }
        ensures { OnOk result (MakesLine (lines.Cred client cred.now) self.old self.new) }
    {
        self.creds[client as usize - 1] = copy_cred(alloc, cred)?;
        Ok(())
    }

    fn line(&mut self, alloc: Global, line: &Line) -> Result<(), Memory>
        requires { CanMake line.now self.old }
        ensures { OnOk result (MakesLine line.now self.old self.new) }
    {
        match line {
            Line::Cred { client, cred } => self.cred(alloc, *client, cred),
            Line::Call {
                client,
                form,
                prog,
                vers,
                proc,
                args,
            } => {
                let procedure = Procedure {
                    prog: *prog,
                    vers: *vers,
                    proc: *proc,
                };
                self.submit(alloc, *client as usize, form, procedure, args.as_slice())
            }
            Line::Up { client, most } => self.up(*client as usize, *most),
            Line::Down { client, most } => self.down(*client as usize, *most),
            Line::Work { client } => self.work(*client as usize),
            Line::Tick { seconds } => {
                self.seconds += *seconds;
                Ok(())
            }
            Line::Forget { client, number } => self.forget(*client as usize, *number),
            Line::Revoke { client, number } => self.revoke(*client as usize, *number),
            Line::Drop { client } => self.drop_link(*client as usize),
            Line::Rejoin { client } => self.rejoin(*client as usize),
            Line::Grant { client, credits } => self.grant(*client as usize, *credits),
            Line::Raw {
                client,
                side,
                bytes,
            } => self.raw(*client as usize, *side, bytes.as_slice()),
            Line::Drain => self.drain(),
        }
    }

    pub(crate) fn all_lines(&mut self, alloc: Global, lines: &[Line]) -> Result<(), Memory>
        requires { CanMakeAll lines.now self.old }
        ensures { OnOk result (MakesLines lines.now self.old self.new) }
    {
        for line in lines {
            self.line(alloc, line)?;
        }
        Ok(())
    }
}

//! Two images to be run.
ghost use Rattle.std.specs.Prelude.{◌≡◌, ◌<◌, ◌+◌, length, true, IfOk, IsTrue};
ghost use Rattle.window_model.specs.Taint.{protects};
ghost use Rattle.pair_run.specs.inner.Images.{Opened, image_at};
ghost use Rattle.run_inputs.specs.Loaded.{image_text};
ghost use Rattle.pair_run.specs.Answer.{Answers};
ghost use Rattle.pair_run.specs.declared.answer.Differ.TheVariants.{Same};

use crate::answer::PairAnswer;
use crate::loaded::agree_for;
use crate::running::{run_both, steps_of};
use crate::starting::{Cores, Starts};
use elf_loader::Image;
use machine_desc::Desc;
use rename_taint::RenameTaint;
use rv_types::NoMemory;
use std::alloc::Global;
use std::marker::Model;
use window_model::Clocked;

/// Two images and the description of the core that is to be run on both, once. It has all memory that the runs take.
#[derive(Drop)]
pub struct Pair<R: RenameTaint + Drop> {
    desc: Desc,
    /// Whether both images have one code, which the cores and the path hold.
    same_code: bool,
    starts: Starts,
    cores: Cores<R>,
}

impl<R: RenameTaint + Drop> Model for Pair<R> {
    ghost use Rattle.pair_run.specs.inner.Images.{Images, images_code, Opened, image_at};

    ghost Value = { Images };

    ghost coded = { images_code };

    ghost view = { λ p. record {
      desc = p.desc;
      one = image_at p.starts.one p.cores.first.code;
      two = image_at p.starts.two p.cores.second.code;
    } };

    ghost invariant = { λ p.
        Opened p.desc p.starts.one p.starts.two p.same_code p.cores.first p.cores.second p.starts.path };
}

impl<R: RenameTaint + Drop> Pair<R> {
    /// Makes a core and the instruction set's state of the images. It takes all the memory that the runs take: for each
    /// byte of the description's memory 11, and what two cores take besides. The one error is want of it.
    pub fn new(alloc: Global, desc: &Desc, one: Image, two: Image) -> Result<Pair<R>, NoMemory>
        requires base { one.ram.base ≡ desc.now.ram_base }
        requires size { length one.ram.bytes ≡ desc.now.ram_size }
        requires base2 { two.ram.base ≡ desc.now.ram_base }
        requires size2 { length two.ram.bytes ≡ desc.now.ram_size }
        ensures { IfOk result (λ p. p ≡ record { desc = desc.now; one = one; two = two }) }
    {
        let same_code = two.code.same(&one.code);
        let starts = Starts::of(alloc, &one, &two)?;
        let cores = Cores::of(alloc, desc, one, two)?;
        Ok(Pair {
            desc: *desc,
            same_code,
            starts,
            cores,
        })
    }

    /// Runs a core on both images, for at most so many cycles each, and answers how the runs differ, and whether they
    /// have to be the same under a model that protects (`docs/theorems.md`, "Noninterference"). It takes no memory.
    pub fn run(self, cycles: u32) -> PairAnswer
        ensures answers { Answers self.desc (image_text self.one) (image_text self.two) cycles result }
        ensures hides { protects self.desc.stt_model ≡ true → IsTrue result.premise → result.first ≡ Same }
    {
        let Pair {
            desc,
            same_code,
            mut starts,
            mut cores,
        } = self;
        answer_of(&desc, same_code, &mut starts, &mut cores, cycles)
    }
}

// What is answered of two cores that stand at their beginnings, as the path does.
fn answer_of<R: RenameTaint + Drop>(
    desc: &Desc,
    same_code: bool,
    starts: &mut Starts,
    cores: &mut Cores<R>,
    cycles: u32,
) -> PairAnswer
    requires { Opened desc.now starts.old.one starts.old.two same_code
        cores.old.first cores.old.second starts.old.path }
    ensures answers { Answers desc.now (image_text (image_at starts.old.one cores.old.first.code))
        (image_text (image_at starts.old.two cores.old.second.code)) cycles result }
    ensures hides { protects desc.now.stt_model ≡ true → IsTrue result.premise → result.first ≡ Same }
{
    let first = run_both(&mut cores.first, &mut cores.second, cycles);
    let steps = steps_of(&cores.first, desc);
    let Starts { one, two, path } = starts;
    PairAnswer {
        premise: agree_for(path, desc.stt_model, same_code, one, two, steps),
        first,
        retired: cores.first.retired(),
        cycles: cores.first.cycles(),
    }
}

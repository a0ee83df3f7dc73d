//! What holds of commands that are used one after the other. The functions do nothing: their contracts are the laws.
ghost use Rattle.mm_top.specs.SaveToRun.{SavesGoOn};
ghost use Rattle.mm_top.specs.TextToRun.{TextsAreRun};

/// The law of texts that are run. If texts mean objects, and `link` writes an image from the files that `asm` writes of
/// the texts, the image is the one that the objects link to. What `run` writes of the image is the report of its run.
pub fn texts_are_run()
    ensures { TextsAreRun }
{}

/// The law of saved runs. What `save` writes is read as one checkpoint of the image. From that checkpoint `continue`
/// writes the report of the one run that goes on from the end of the saved run, with the counts of the further cycles
/// alone. In round robin that is the run of all cycles.
pub fn saves_go_on()
    ensures { SavesGoOn }
{}

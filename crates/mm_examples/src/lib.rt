//! Worked examples of the machine, as theorems that compute.
//!
//! These functions do nothing when they run: the contract of each says what the model makes of an image.
#![tactic(auto)]

ghost use Rattle.mm_examples.specs.Worked.{SaysA, FetchesNoPage, RunsPastTheEnd, JumpsThroughAGate, GatesStandStill};
ghost use Rattle.mm_examples.specs.Worked.{ReadingIsNoSignal, NoForgery, MapsFrames, MapIsPrivileged, Exchanges};
ghost use Rattle.mm_examples.specs.Worked.{CountsBehindTheGate, TakesEvents, ResumesTakenAlone, TwoGroups};
ghost use Rattle.mm_examples.specs.Worked.{AbsentSlotsIdle, TracesTheGate, WaitsInTheTrace, Issues, Delivers};
ghost use Rattle.mm_examples.specs.Worked.{LoadsAtOnce, WaitsToWrite, CountsDoneStores, SpelledInBytes, FirstFaults};
ghost use Rattle.mm_examples.specs.Worked.{HandlersAreLate};
ghost use Rattle.mm_examples.specs.Worked.{CountsHello, CountsGated, CountsSweeper};
ghost use Rattle.mm_examples.specs.WorkedSchedules.{MeansItems, MeansNothing, MeansAbsentSlots, SkipsComments};
ghost use Rattle.mm_examples.specs.WorkedSchedules.{CountsTooMany, ListsTooMany, CountsNone, LeadsWithZero};
ghost use Rattle.mm_examples.specs.WorkedSchedules.{KeepsOneGroup, KeepsIdleItems, KeepsPorts, RobinBeginsLate};
ghost use Rattle.mm_examples.specs.WorkedCommands.{TableIsWrittenOut};
ghost use Rattle.mm_examples.specs.WorkedObjects.{FirstObjectFaults, UsesAreLate, SpellsSegments};
ghost use Rattle.mm_examples.specs.WorkedObjects.{SpellsObjectHeaders, SpellsRelocations, SpellsThreads};
ghost use Rattle.mm_examples.specs.WorkedRecords.{SpellsImageHeaders, SpellsSlots, SpellsPages};
ghost use Rattle.mm_examples.specs.WorkedCheckpoints.{SpellsHeaders, SpellsWaitingSlots, SpellsHaltedSlots};
ghost use Rattle.mm_examples.specs.WorkedCheckpoints.{SpellsOutputsAndLoads, SavesAFault, SavesOutputsAndPages};
ghost use Rattle.mm_examples.specs.WorkedCheckpoints.{FirstFaultsOfHeaders, FirstFaultsOfSlots};
ghost use Rattle.mm_examples.specs.WorkedCheckpoints.{FirstFaultsOfOutputsAndPages, FirstFaultsOfWaitingSlots};
ghost use Rattle.mm_examples.specs.WorkedCheckpoints.{PlacesAreLate, FirstFaultsOfLoads};
ghost use Rattle.mm_examples.specs.WorkedReach.{TouchesItsCode, NoGroupWrites, WritesNoCode, TwoGroupsStandApart};
ghost use Rattle.mm_examples.specs.WorkedReach.{BothCanWrite, NeitherStandsApart};
ghost use Rattle.mm_examples.specs.WorkedWords.{MakesPointers, MakesNone, Moves, MovesFromTheBase, Restricts, Shortens};
ghost use Rattle.mm_examples.specs.WorkedWords.{Advances, JumpsTo, Accesses, IntegersAreNoPointers, ReadsWords};
ghost use Rattle.mm_examples.specs.WorkedWords.{ReadsArithmetic, ReadsNone, Calculates};

/// The program's table of commands, written out.
pub fn table_of_commands()
    ensures { TableIsWrittenOut }
{}

/// Examples of pointers, accesses, instruction words and arithmetic.
#[tactic(auto, using(crate::proofs::OfWords::makes_pointers, crate::proofs::OfWords::makes_none, crate::proofs::OfWords::moves, crate::proofs::OfWords::moves_from_the_base, crate::proofs::OfWords::restricts, crate::proofs::OfWords::shortens, crate::proofs::OfWords::advances, crate::proofs::OfWords::jumps_to, crate::proofs::OfWords::accesses, crate::proofs::OfWords::integers_are_no_pointers, crate::proofs::OfWords::reads_words, crate::proofs::OfWords::reads_arithmetic, crate::proofs::OfWords::reads_none, crate::proofs::OfWords::calculates))]
pub fn words()
    ensures makes_pointers { MakesPointers }
    ensures makes_none { MakesNone }
    ensures moves { Moves }
    ensures moves_from_the_base { MovesFromTheBase }
    ensures restricts { Restricts }
    ensures shortens { Shortens }
    ensures advances { Advances }
    ensures jumps_to { JumpsTo }
    ensures accesses { Accesses }
    ensures integers_are_no_pointers { IntegersAreNoPointers }
    ensures reads_words { ReadsWords }
    ensures reads_arithmetic { ReadsArithmetic }
    ensures reads_none { ReadsNone }
    ensures calculates { Calculates }
{}

/// Examples of runs of one slot.
#[tactic(auto, using(crate::proofs::OneSlot::says_a, crate::proofs::OneSlot::fetches_no_page, crate::proofs::OneSlot::runs_past_the_end, crate::proofs::OneSlot::enters, crate::proofs::OneSlot::gates_stand_still, crate::proofs::OneSlot::reading_is_no_signal, crate::proofs::OneSlot::no_forgery, crate::proofs::OneSlot::maps_frames, crate::proofs::OneSlot::map_is_privileged))]
pub fn runs_of_one_slot()
    ensures says_a { SaysA }
    ensures fetches_no_page { FetchesNoPage }
    ensures runs_past_the_end { RunsPastTheEnd }
    ensures enters { JumpsThroughAGate }
    ensures gates_stand_still { GatesStandStill }
    ensures reading_is_no_signal { ReadingIsNoSignal }
    ensures no_forgery { NoForgery }
    ensures maps_frames { MapsFrames }
    ensures map_is_privileged { MapIsPrivileged }
{}

/// Examples of runs of several slots.
#[tactic(auto, using(crate::proofs::ManySlots::exchanges, crate::proofs::ManySlots::counts_behind_the_gate, crate::proofs::ManySlots::takes_events, crate::proofs::ManySlots::resumes_taken_alone, crate::proofs::ManySlots::two_groups, crate::proofs::ManySlots::absent_slots_idle, crate::proofs::ManySlots::traces_the_gate, crate::proofs::ManySlots::waits_in_the_trace))]
pub fn runs_of_several_slots()
    ensures exchanges { Exchanges }
    ensures counts_behind_the_gate { CountsBehindTheGate }
    ensures takes_events { TakesEvents }
    ensures resumes_taken_alone { ResumesTakenAlone }
    ensures two_groups { TwoGroups }
    ensures absent_slots_idle { AbsentSlotsIdle }
    ensures traces_the_gate { TracesTheGate }
    ensures waits_in_the_trace { WaitsInTheTrace }
{}

/// Examples of runs of split machines.
#[tactic(auto, using(crate::proofs::Split::issues, crate::proofs::Split::delivers, crate::proofs::Split::loads_at_once, crate::proofs::Split::waits_to_write))]
pub fn runs_of_split_machines()
    ensures issues { Issues }
    ensures delivers { Delivers }
    ensures loads_at_once { LoadsAtOnce }
    ensures waits_to_write { WaitsToWrite }
{}

/// Examples of what a cache counts of runs.
#[tactic(auto, using(crate::proofs::CountsOf::counts_hello, crate::proofs::CountsOf::counts_gated, crate::proofs::CountsOf::counts_sweeper, crate::proofs::CountsOf::counts_done_stores))]
pub fn counts_of_runs()
    ensures counts_hello { CountsHello }
    ensures counts_gated { CountsGated }
    ensures counts_sweeper { CountsSweeper }
    ensures counts_done_stores { CountsDoneStores }
{}

/// Examples of the bytes of images, and of their first faults.
#[tactic(auto, using(crate::proofs::Spelled::spelled_in_bytes, crate::proofs::Spelled::first_faults, crate::proofs::Spelled::handlers_are_late))]
pub fn bytes_of_images()
    ensures spelled_in_bytes { SpelledInBytes }
    ensures first_faults { FirstFaults }
    ensures handlers_are_late { HandlersAreLate }
{}

/// Examples of the bytes of headers and records of images and objects.
#[tactic(auto, using(crate::proofs::SpelledRecords::spells_image_headers, crate::proofs::SpelledRecords::spells_object_headers, crate::proofs::SpelledRecords::spells_slots, crate::proofs::SpelledRecords::spells_pages, crate::proofs::SpelledRecords::spells_segments, crate::proofs::SpelledRecords::spells_relocations, crate::proofs::SpelledRecords::spells_threads))]
pub fn bytes_of_records()
    ensures image_headers { SpellsImageHeaders }
    ensures object_headers { SpellsObjectHeaders }
    ensures slots { SpellsSlots }
    ensures pages { SpellsPages }
    ensures segments { SpellsSegments }
    ensures relocations { SpellsRelocations }
    ensures threads { SpellsThreads }
{}

/// Examples of the first faults of object files.
#[tactic(auto, using(crate::proofs::SpelledObjects::first_object_faults, crate::proofs::SpelledObjects::uses_are_late))]
pub fn faults_of_objects()
    ensures first_object_faults { FirstObjectFaults }
    ensures uses_are_late { UsesAreLate }
{}

/// Examples of the bytes of a checkpoint's records.
#[tactic(auto, using(crate::proofs::SpelledCheckpoints::spells_headers, crate::proofs::SpelledCheckpoints::spells_waiting_slots, crate::proofs::SpelledCheckpoints::spells_halted_slots, crate::proofs::SpelledCheckpoints::spells_outputs_and_loads))]
pub fn bytes_of_saved_records()
    ensures headers { SpellsHeaders }
    ensures waiting_slots { SpellsWaitingSlots }
    ensures halted_slots { SpellsHaltedSlots }
    ensures outputs_and_loads { SpellsOutputsAndLoads }
{}

/// Examples of the bytes of checkpoints of runs.
#[tactic(auto, using(crate::proofs::SpelledCheckpoints::saves_a_fault, crate::proofs::SpelledCheckpoints::saves_outputs_and_pages))]
pub fn bytes_of_checkpoints()
    ensures fault { SavesAFault }
    ensures outputs_and_pages { SavesOutputsAndPages }
{}

/// Examples of the first faults of a checkpoint's file, read against an image.
#[tactic(auto, using(crate::proofs::SpelledCheckpoints::first_faults_of_headers, crate::proofs::SpelledCheckpoints::first_faults_of_slots, crate::proofs::SpelledCheckpoints::first_faults_of_outputs_and_pages, crate::proofs::SpelledCheckpoints::first_faults_of_waiting_slots, crate::proofs::SpelledCheckpoints::places_are_late, crate::proofs::SpelledCheckpoints::first_faults_of_loads))]
pub fn faults_of_checkpoints()
    ensures headers { FirstFaultsOfHeaders }
    ensures slots { FirstFaultsOfSlots }
    ensures outputs_and_pages { FirstFaultsOfOutputsAndPages }
    ensures waiting_slots { FirstFaultsOfWaitingSlots }
    ensures places_are_late { PlacesAreLate }
    ensures loads { FirstFaultsOfLoads }
{}

/// Examples of schedules: their meanings and faults, and what is kept of them for a group.
#[tactic(auto, using(crate::proofs::Listed::means_items, crate::proofs::Listed::means_nothing, crate::proofs::Listed::means_absent_slots, crate::proofs::Listed::skips_comments, crate::proofs::Listed::counts_too_many, crate::proofs::Listed::lists_too_many, crate::proofs::Listed::counts_none, crate::proofs::Listed::leads_with_zero, crate::proofs::Listed::keeps_one_group, crate::proofs::Listed::keeps_idle_items, crate::proofs::Listed::keeps_ports, crate::proofs::ManySlots::robin_begins_late))]
pub fn schedules()
    ensures means_items { MeansItems }
    ensures means_nothing { MeansNothing }
    ensures means_absent_slots { MeansAbsentSlots }
    ensures skips_comments { SkipsComments }
    ensures counts_too_many { CountsTooMany }
    ensures lists_too_many { ListsTooMany }
    ensures counts_none { CountsNone }
    ensures leads_with_zero { LeadsWithZero }
    ensures keeps_one_group { KeepsOneGroup }
    ensures keeps_idle_items { KeepsIdleItems }
    ensures keeps_ports { KeepsPorts }
    ensures robin_begins_late { RobinBeginsLate }
{}

/// Examples of what groups can touch and write, and of groups that stand apart.
#[tactic(auto, using(crate::proofs::Reach::touches_its_code, crate::proofs::Reach::no_group_writes, crate::proofs::Reach::writes_no_code, crate::proofs::Reach::two_groups_stand_apart, crate::proofs::Reach::both_can_write, crate::proofs::Reach::neither_stands_apart))]
pub fn reach_of_images()
    ensures touches_its_code { TouchesItsCode }
    ensures no_group_writes { NoGroupWrites }
    ensures writes_no_code { WritesNoCode }
    ensures two_groups_stand_apart { TwoGroupsStandApart }
    ensures both_can_write { BothCanWrite }
    ensures neither_stands_apart { NeitherStandsApart }
{}

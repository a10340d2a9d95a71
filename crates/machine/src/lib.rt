// The chip of docs/MANUAL.md as definitions, and what is proved over them. Nothing here runs: the machine is a chip of its own, over numbers and
// lists, that the code is proved against.
//
// specs/ has a file for each part of the chip, which cites the manual's sections, and the statements: WellFormedness (every event keeps a machine
// well formed), SingleClock (advancing by n clocks is n single clocks), Numbers (the numbers of manual 15) and Readings (right readings by example).

#![tactic(auto)]

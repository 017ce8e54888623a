// Definitions and theorems only: that the rows decide by connections as by the histories of these, and that two honest ends are never
// blocked by a machine that keeps to the rows.
#![tactic(auto)]

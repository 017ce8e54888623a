// Definitions and theorems only: the unwrapped line that a connection's six numbers stand for.
#![tactic(auto)]

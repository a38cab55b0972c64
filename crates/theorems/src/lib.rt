// What is proved (specs/Theorems.antt, and of two sheets specs/TwoTheorems.antt), and histories that meet its hypotheses; no code.
#![tactic(auto)]

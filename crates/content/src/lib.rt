// No code: the content of a plan, its clean copy as bytes, and what is promised of it (document 02, E4).
#![tactic(auto)]

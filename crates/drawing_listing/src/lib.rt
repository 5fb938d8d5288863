#![tactic(auto)]

// No code: the listing of a plan, read back as a drawing, is its own sheet.

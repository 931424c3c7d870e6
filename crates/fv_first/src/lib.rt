//! What is found first in a list, and where: definitions, and the lemmas by which a loop that looks
//! for it is proved.
#![tactic(auto)]

// A decimal in hand as a double: what it is, that it is the one that a call for a double gives, and how a host program tells
// that there is none. There is no code here.

#![tactic(auto)]

// The demands on the definitions of the note, as theorems: what follows the note, what a refusal says, how rows lie, what one changed
// byte changes, what Find gives, what writers and closings lay and when they are granted. There is no function here.
#![tactic(auto)]

// What a registrar may rely on: specs/Claims.antt states each theorem under one sentence, proofs/ proves it. There is no code.

#![tactic(auto)]

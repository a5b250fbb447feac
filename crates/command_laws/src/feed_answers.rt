//! The law that the answers to the frames of a stream are those of a node's `install`, frame by frame.

ghost use Rattle.std.specs.Prelude.{◌≡◌, ℕ, List};
ghost use Rattle.vm_shape.specs.declared.description.Description.{Description};
ghost use Rattle.mate_journal.specs.Journal.{first_state};
ghost use Rattle.node_state.specs.Meaning.{machine_in};
ghost use Rattle.slip_gateway.specs.Stream.{frames};
ghost use Rattle.command_documents.specs.FeedAnswers.{answers_to};
ghost use Rattle.command_documents.specs.declared.answer.Answer.{Answer};
ghost use Rattle.command_laws.specs.Installing.{AreAnswered};

/// The answers of a new node's `install` to the frames of a stream, called on one after another, are the stream's answers.
pub fn answers_are_of_install()
    ensures { (d : Description) (bytes : List ℕ) (told : List Answer) → AreAnswered d (first_state (machine_in d)) (frames bytes) told
        → told ≡ answers_to d bytes }
{}

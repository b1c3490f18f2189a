// An action in plain words.
ghost use Rattle.std.specs.Prelude.{◌≡◌, [], ◌∷◌, ◌++◌, ◌≤◌, length};
ghost use Rattle.transcript.specs.Text.{ascii, decimal};
ghost use Rattle.transcript.specs.Lines.{line};
ghost use Rattle.transcript.specs.Writer.{written};
ghost use Rattle.transcript.specs.Printed.{request_words, respond_words, address_word, label_words, hold_word, line_after, change_word, action_line};

use crate::writer::Line;
use charts::Action;

const EVERYBODY: u8 = 63;

impl Line<'_> {
    #[tactic(auto, using(crate::proofs::Writes::pieces), unfolding(crate::specs::Printed::address_word))]
    fn address(&mut self, address: u8)
        ensures { self.new ≡ written self.old (address_word address) }
    {
        if address == EVERYBODY {
            self.word(b"all");
        } else {
            self.figure(address as u64);
        }
    }

    // A header and a datum.
    fn fields(&mut self, header: u32, datum: u32)
        ensures { self.new ≡ written self.old (decimal header ++ (32 ∷ decimal datum)) }
    {
        self.figure(header as u64);
        self.byte(b' ');
        self.figure(datum as u64);
    }

    // The label of a request, where it is not 0, and the end of the line.
    fn label_after(&mut self, label: u8)
        ensures { self.new ≡ written self.old (line_after (label_words label)) }
    {
        if label != 0 {
            self.word(b" label ");
            self.figure(label as u64);
        }
        self.byte(b'\n');
    }

    fn request(&mut self, a: Action)
        ensures { self.new ≡ written self.old (line (request_words a)) }
    {
        self.word(b"request ");
        self.figure(a.node as u64);
        self.byte(b' ');
        self.address(a.address);
        self.byte(b' ');
        self.fields(a.header, a.datum);
        self.label_after(a.label);
    }

    // A line with a node alone: the word with a space after it, and the node.
    fn of_node(&mut self, word: &[u8], node: u8)
        ensures { self.new ≡ written self.old (word.now ++ line (decimal node ∷ [])) }
    {
        self.word(word);
        self.figure(node as u64);
        self.byte(b'\n');
    }

    fn hold_after(&mut self, hold: u8)
        ensures { self.new ≡ written self.old (line_after (hold_word hold)) }
    {
        if hold != 0 {
            self.word(b" hold");
        }
        self.byte(b'\n');
    }

    fn respond(&mut self, a: Action)
        ensures { self.new ≡ written self.old (line (respond_words a)) }
    {
        self.word(b"respond ");
        self.figure(a.node as u64);
        self.byte(b' ');
        self.figure(a.ack as u64);
        self.hold_after(a.hold);
    }

    fn change(&mut self, address: u8)
        ensures { self.new ≡ written self.old (line (ascii "change" ∷ change_word address)) }
    {
        self.word(b"change");
        if address != 0 {
            self.byte(b' ');
            self.address(address);
        }
        self.byte(b'\n');
    }

    // An action in plain words, as `list` prints it.
    #[tactic(auto, using(crate::proofs::Writes::pieces, crate::proofs::Lengths::action_short), unfolding(crate::specs::Printed::action_line, crate::specs::Printed::words_for))]
    pub fn action(&mut self, a: Action)
        ensures short { length (action_line a) ≤ 64 }
        ensures writes { self.new ≡ written self.old (action_line a) }
    {
        match a.kind {
            1 => self.request(a),
            2 => self.of_node(b"arbitrate ", a.node),
            3 => self.respond(a),
            4 => self.of_node(b"clock ", a.node),
            5 => self.word(b"pass\n"),
            6 => self.word(b"lose\n"),
            7 => self.change(a.address),
            8 => self.word(b"grant\n"),
            9 => self.word(b"gap\n"),
            10 => self.word(b"reset\n"),
            11 => self.of_node(b"ask ", a.node),
            12 => self.of_node(b"decide ", a.node),
            _ => self.byte(b'\n'),
        }
    }
}

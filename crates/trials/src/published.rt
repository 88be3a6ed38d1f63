// Small programs from the literature on answer sets with aggregates, with all their answer sets.
use super::values::Reckoning;
use std::fmt;

// Where the answer sets of an example come from: the literature states that these are all; it states one of them, or
// that there is one; it states them under another reading of aggregates, and by the definition they are the same; or
// they are worked out by the definition alone.
#[derive(Clone, Copy, PartialEq, Eq, Debug)]
pub(crate) enum Basis {
    Stated,
    StatedInPart,
    StatedElsewhere,
    WorkedOut,
}

impl fmt::Display for Basis {
    fn fmt<W: fmt::Write>(&self, f: &mut fmt::Formatter<W>) -> fmt::Result {
        f.write_str(match self {
            Basis::Stated => "stated",
            Basis::StatedInPart => "stated in part",
            Basis::StatedElsewhere => "stated under another reading",
            Basis::WorkedOut => "worked out",
        })
    }
}

#[derive(Clone, Copy)]
pub(crate) struct Example {
    pub title: &'static str,
    pub reckoning: Reckoning,
    pub basis: Basis,
    // The statements in order, as words.
    pub statements: &'static str,
    // A rule a line.
    pub rules: &'static str,
    // Each in braces.
    pub answer_sets: &'static str,
}

pub(crate) const EXAMPLES: [Example; 51] = [
    Example {
        title: "One statement where its own number is one",
        reckoning: Reckoning::House,
        basis: Basis::Stated,
        statements: "p_a",
        rules: "
            p_a :- count{p_a:1} = 1.
        ",
        answer_sets: "
            {}
        ",
    },
    Example {
        title: "One statement where its own number is not one",
        reckoning: Reckoning::House,
        basis: Basis::Stated,
        statements: "p_1",
        rules: "
            p_1 :- count{p_1:1} != 1.
        ",
        answer_sets: "",
    },
    Example {
        title: "One statement where its own number is zero",
        reckoning: Reckoning::House,
        basis: Basis::Stated,
        statements: "p_0",
        rules: "
            p_0 :- count{p_0:1} = 0.
        ",
        answer_sets: "",
    },
    Example {
        title: "One statement where its own number is at least zero",
        reckoning: Reckoning::House,
        basis: Basis::Stated,
        statements: "p_1",
        rules: "
            p_1 :- count{p_1:1} >= 0.
        ",
        answer_sets: "",
    },
    Example {
        title: "One statement where its own number, named first, is at least zero",
        reckoning: Reckoning::House,
        basis: Basis::Stated,
        statements: "p_1",
        rules: "
            p_1 :- count{p_1:1} = 0.
            p_1 :- count{p_1:1} = 1.
        ",
        answer_sets: "",
    },
    Example {
        title: "One statement where the number of the others is zero",
        reckoning: Reckoning::House,
        basis: Basis::StatedInPart,
        statements: "p_1",
        rules: "
            p_1 :- count{} = 0.
        ",
        answer_sets: "
            {p_1}
        ",
    },
    Example {
        title: "One statement where the number of the others is at least zero",
        reckoning: Reckoning::House,
        basis: Basis::Stated,
        statements: "p_1",
        rules: "
            p_1 :- count{} >= 0.
        ",
        answer_sets: "
            {p_1}
        ",
    },
    Example {
        title: "Two statements in a circle, and a number that is not one",
        reckoning: Reckoning::House,
        basis: Basis::Stated,
        statements: "p_0 p_1",
        rules: "
            p_1 :- p_0.
            p_0 :- p_1.
            p_1 :- count{p_0:1, p_1:1} != 1.
        ",
        answer_sets: "",
    },
    Example {
        title: "A circle through two rules",
        reckoning: Reckoning::House,
        basis: Basis::Stated,
        statements: "p_1 q_1",
        rules: "
            p_1 :- q_1.
            q_1 :- count{p_1:1} != 1.
        ",
        answer_sets: "",
    },
    Example {
        title: "One found, and another for a number that takes in both",
        reckoning: Reckoning::House,
        basis: Basis::Stated,
        statements: "p_a p_b",
        rules: "
            p_a.
            p_b :- count{p_a:1, p_b:1} > 0.
        ",
        answer_sets: "",
    },
    Example {
        title: "One found, and another for the number of the others",
        reckoning: Reckoning::House,
        basis: Basis::Stated,
        statements: "p_a p_b",
        rules: "
            p_a.
            p_b :- count{p_a:1} > 0.
        ",
        answer_sets: "
            {p_a, p_b}
        ",
    },
    Example {
        title: "A number that two statements would bring about together",
        reckoning: Reckoning::House,
        basis: Basis::StatedElsewhere,
        statements: "p_1 p_2 p_3",
        rules: "
            p_1.
            p_3 :- count{p_1:1, p_2:1, p_3:1} >= 2.
            p_2 :- count{p_1:1, p_2:1, p_3:1} >= 2.
        ",
        answer_sets: "
            {p_1}
        ",
    },
    Example {
        title: "A number for each of two values",
        reckoning: Reckoning::House,
        basis: Basis::StatedInPart,
        statements: "r_a r_b p_a_a p_b_a p_a_b p_b_b q_a q_b",
        rules: "
            r_a.
            r_b.
            p_a_b.
            q_a :- r_a, count{p_a_a:1, p_b_a:1} = 1.
            q_b :- r_b, count{p_a_b:1, p_b_b:1} = 1.
        ",
        answer_sets: "
            {r_a, r_b, p_a_b, q_b}
        ",
    },
    Example {
        title: "A variable of the set that also stands outside",
        reckoning: Reckoning::House,
        basis: Basis::Stated,
        statements: "p_a p_b q_a q_b r",
        rules: "
            p_a.
            p_b.
            q_a.
            r :- q_a, count{p_a:1, p_b:1} >= 2.
            r :- q_b, count{p_a:1, p_b:1} >= 2.
        ",
        answer_sets: "
            {p_a, p_b, q_a, r}
        ",
    },
    Example {
        title: "A variable of the set read as one for the whole rule",
        reckoning: Reckoning::House,
        basis: Basis::StatedElsewhere,
        statements: "p_a p_b q_a q_b r",
        rules: "
            p_a.
            p_b.
            q_a.
            r :- q_a, count{p_a:1} >= 2.
            r :- q_b, count{p_b:1} >= 2.
        ",
        answer_sets: "
            {p_a, p_b, q_a}
        ",
    },
    Example {
        title: "Classes that need a teaching assistant",
        reckoning: Reckoning::House,
        basis: Basis::WorkedOut,
        statements: "enrolled_c_mike enrolled_c_john enrolled_c_ann enrolled_d_mike enrolled_d_ann need_c need_d",
        rules: "
            enrolled_c_mike.
            enrolled_c_john.
            enrolled_c_ann.
            enrolled_d_mike.
            enrolled_d_ann.
            need_c :- count{enrolled_c_mike:1, enrolled_c_john:1, enrolled_c_ann:1} > 2.
            need_d :- count{enrolled_d_mike:1, enrolled_d_ann:1} > 2.
        ",
        answer_sets: "
            {enrolled_c_mike, enrolled_c_john, enrolled_c_ann, enrolled_d_mike, enrolled_d_ann, need_c}
        ",
    },
    Example {
        title: "Two that shut each other out, and one that stands on itself",
        reckoning: Reckoning::House,
        basis: Basis::Stated,
        statements: "q p_a p_b",
        rules: "
            p_a :- count{p_a:1, p_b:1} > 0.
            p_b :- not q.
            q :- not p_b.
        ",
        answer_sets: "
            {q}
        ",
    },
    Example {
        title: "A choice that a constraint decides through a number",
        reckoning: Reckoning::House,
        basis: Basis::StatedInPart,
        statements: "p_a p_b q_a q_b",
        rules: "
            :- p_a.
            p_a :- count{q_a:1, q_b:1} > 0.
            q_a | p_b.
        ",
        answer_sets: "
            {p_b}
        ",
    },
    Example {
        title: "A number that is at most zero, by way of a negation",
        reckoning: Reckoning::House,
        basis: Basis::StatedElsewhere,
        statements: "q p_a",
        rules: "
            p_a :- not q.
            q :- count{p_a:1} <= 0.
        ",
        answer_sets: "
            {q}
            {p_a}
        ",
    },
    Example {
        title: "Those that are one thing and not another",
        reckoning: Reckoning::House,
        basis: Basis::StatedElsewhere,
        statements: "p_a p_b q_a q_b r_a r_b",
        rules: "
            p_a.
            q_b.
            r_a :- p_a, not q_a.
            r_b :- p_b, not q_b.
        ",
        answer_sets: "
            {p_a, q_b, r_a}
        ",
    },
    Example {
        title: "A free choice for each of two",
        reckoning: Reckoning::House,
        basis: Basis::StatedElsewhere,
        statements: "p_a p_b q_a q_b left_a left_b",
        rules: "
            p_a.
            p_b.
            q_a :- p_a, not left_a.
            q_b :- p_b, not left_b.
            left_a :- p_a, not q_a.
            left_b :- p_b, not q_b.
        ",
        answer_sets: "
            {p_a, p_b, q_a, q_b}
            {p_a, p_b, q_a, left_b}
            {p_a, p_b, q_b, left_a}
            {p_a, p_b, left_a, left_b}
        ",
    },
    Example {
        title: "A free choice of at least two",
        reckoning: Reckoning::House,
        basis: Basis::StatedElsewhere,
        statements: "p_a p_b q_a q_b left_a left_b",
        rules: "
            p_a.
            p_b.
            q_a :- p_a, not left_a.
            q_b :- p_b, not left_b.
            left_a :- p_a, not q_a.
            left_b :- p_b, not q_b.
            :- count{q_a:1, q_b:1} <= 1.
        ",
        answer_sets: "
            {p_a, p_b, q_a, q_b}
        ",
    },
    Example {
        title: "A clique of at least three in a graph",
        reckoning: Reckoning::House,
        basis: Basis::StatedElsewhere,
        statements: "
            in_a in_b in_c in_d out_a out_b out_c out_d edge_a_b edge_a_c edge_a_d edge_b_c edge_b_d
            edge_c_d
        ",
        rules: "
            edge_a_b.
            edge_a_c.
            edge_b_c.
            edge_c_d.
            in_a :- not out_a.
            in_b :- not out_b.
            in_c :- not out_c.
            in_d :- not out_d.
            out_a :- not in_a.
            out_b :- not in_b.
            out_c :- not in_c.
            out_d :- not in_d.
            :- in_a, in_b, not edge_a_b.
            :- in_a, in_c, not edge_a_c.
            :- in_a, in_d, not edge_a_d.
            :- in_b, in_c, not edge_b_c.
            :- in_b, in_d, not edge_b_d.
            :- in_c, in_d, not edge_c_d.
            :- count{in_a:1, in_b:1, in_c:1, in_d:1} <= 2.
        ",
        answer_sets: "
            {in_a, in_b, in_c, out_d, edge_a_b, edge_a_c, edge_b_c, edge_c_d}
        ",
    },
    Example {
        title: "A clique of at least two in a graph",
        reckoning: Reckoning::House,
        basis: Basis::StatedElsewhere,
        statements: "
            in_a in_b in_c in_d out_a out_b out_c out_d edge_a_b edge_a_c edge_a_d edge_b_c edge_b_d
            edge_c_d
        ",
        rules: "
            edge_a_b.
            edge_a_c.
            edge_b_c.
            edge_c_d.
            in_a :- not out_a.
            in_b :- not out_b.
            in_c :- not out_c.
            in_d :- not out_d.
            out_a :- not in_a.
            out_b :- not in_b.
            out_c :- not in_c.
            out_d :- not in_d.
            :- in_a, in_b, not edge_a_b.
            :- in_a, in_c, not edge_a_c.
            :- in_a, in_d, not edge_a_d.
            :- in_b, in_c, not edge_b_c.
            :- in_b, in_d, not edge_b_d.
            :- in_c, in_d, not edge_c_d.
            :- count{in_a:1, in_b:1, in_c:1, in_d:1} <= 1.
        ",
        answer_sets: "
            {in_a, in_b, in_c, out_d, edge_a_b, edge_a_c, edge_b_c, edge_c_d}
            {in_a, in_b, out_c, out_d, edge_a_b, edge_a_c, edge_b_c, edge_c_d}
            {in_a, in_c, out_b, out_d, edge_a_b, edge_a_c, edge_b_c, edge_c_d}
            {in_b, in_c, out_a, out_d, edge_a_b, edge_a_c, edge_b_c, edge_c_d}
            {in_c, in_d, out_a, out_b, edge_a_b, edge_a_c, edge_b_c, edge_c_d}
        ",
    },
    Example {
        title: "Two different gifts for each child",
        reckoning: Reckoning::House,
        basis: Basis::WorkedOut,
        statements: "
            gets_ann_ball not_ann_ball gets_ann_kite not_ann_kite gets_ann_book not_ann_book
            gets_ann_drum not_ann_drum gets_bob_ball not_bob_ball gets_bob_kite not_bob_kite
            gets_bob_book not_bob_book gets_bob_drum not_bob_drum
        ",
        rules: "
            gets_ann_ball | not_ann_ball.
            gets_ann_kite | not_ann_kite.
            gets_ann_book | not_ann_book.
            gets_ann_drum | not_ann_drum.
            gets_bob_ball | not_bob_ball.
            gets_bob_kite | not_bob_kite.
            gets_bob_book | not_bob_book.
            gets_bob_drum | not_bob_drum.
            :- count{gets_ann_ball:1, gets_ann_kite:1, gets_ann_book:1, gets_ann_drum:1} != 2.
            :- count{gets_bob_ball:1, gets_bob_kite:1, gets_bob_book:1, gets_bob_drum:1} != 2.
            :- gets_ann_ball, gets_bob_ball.
            :- gets_ann_kite, gets_bob_kite.
            :- gets_ann_book, gets_bob_book.
            :- gets_ann_drum, gets_bob_drum.
        ",
        answer_sets: "
            {gets_ann_ball, gets_ann_kite, not_ann_book, not_ann_drum, not_bob_ball, not_bob_kite,
             gets_bob_book, gets_bob_drum}
            {gets_ann_ball, not_ann_kite, gets_ann_book, not_ann_drum, not_bob_ball, gets_bob_kite,
             not_bob_book, gets_bob_drum}
            {gets_ann_ball, not_ann_kite, not_ann_book, gets_ann_drum, not_bob_ball, gets_bob_kite,
             gets_bob_book, not_bob_drum}
            {not_ann_ball, gets_ann_kite, gets_ann_book, not_ann_drum, gets_bob_ball, not_bob_kite,
             not_bob_book, gets_bob_drum}
            {not_ann_ball, gets_ann_kite, not_ann_book, gets_ann_drum, gets_bob_ball, not_bob_kite,
             gets_bob_book, not_bob_drum}
            {not_ann_ball, not_ann_kite, gets_ann_book, gets_ann_drum, gets_bob_ball, gets_bob_kite,
             not_bob_book, not_bob_drum}
        ",
    },
    Example {
        title: "An and gate with one input at zero",
        reckoning: Reckoning::House,
        basis: Basis::Stated,
        statements: "gate_g_and out_w0_g out_w1_g out_w2_g in_w1_g in_w2_g val_w1_0 val_w2_0 val_w0_0",
        rules: "
            gate_g_and.
            out_w0_g.
            in_w1_g.
            in_w2_g.
            val_w1_0.
            val_w0_0 :- gate_g_and, out_w0_g, count{val_w1_0:1, val_w2_0:1} > 0.
            val_w1_0 :- gate_g_and, out_w1_g, count{val_w1_0:1, val_w2_0:1} > 0.
            val_w2_0 :- gate_g_and, out_w2_g, count{val_w1_0:1, val_w2_0:1} > 0.
        ",
        answer_sets: "
            {gate_g_and, out_w0_g, in_w1_g, in_w2_g, val_w1_0, val_w0_0}
        ",
    },
    Example {
        title: "Two and gates in a row",
        reckoning: Reckoning::House,
        basis: Basis::StatedInPart,
        statements: "
            in_w1_g1 in_w2_g1 in_w0_g2 out_w0_g1 out_w3_g2 gate_g1_and gate_g2_and val_w1_0 val_w2_0
            val_w2_1 val_w0_0 val_w3_0
        ",
        rules: "
            in_w1_g1.
            in_w2_g1.
            in_w0_g2.
            out_w0_g1.
            out_w3_g2.
            gate_g1_and.
            gate_g2_and.
            val_w1_0.
            val_w2_1.
            val_w0_0 :- count{val_w1_0:1, val_w2_0:1} > 0.
            val_w3_0 :- count{val_w0_0:1} > 0.
        ",
        answer_sets: "
            {in_w1_g1, in_w2_g1, in_w0_g2, out_w0_g1, out_w3_g2, gate_g1_and, gate_g2_and, val_w1_0, val_w2_1,
             val_w0_0, val_w3_0}
        ",
    },
    Example {
        title: "Two and gates, with every wire tried as an output",
        reckoning: Reckoning::House,
        basis: Basis::StatedInPart,
        statements: "
            in_w1_g1 in_w2_g1 in_w0_g2 out_w0_g1 out_w0_g2 out_w1_g1 out_w1_g2 out_w2_g1 out_w2_g2
            out_w3_g1 out_w3_g2 gate_g1_and gate_g2_and val_w1_0 val_w2_0 val_w2_1 val_w0_0 val_w3_0
        ",
        rules: "
            in_w1_g1.
            in_w2_g1.
            in_w0_g2.
            out_w0_g1.
            out_w3_g2.
            gate_g1_and.
            gate_g2_and.
            val_w1_0.
            val_w2_1.
            val_w0_0 :- out_w0_g1, gate_g1_and, count{val_w1_0:1, val_w2_0:1} > 0.
            val_w0_0 :- out_w0_g2, gate_g2_and, count{val_w0_0:1} > 0.
            val_w1_0 :- out_w1_g1, gate_g1_and, count{val_w1_0:1, val_w2_0:1} > 0.
            val_w1_0 :- out_w1_g2, gate_g2_and, count{val_w0_0:1} > 0.
            val_w2_0 :- out_w2_g1, gate_g1_and, count{val_w1_0:1, val_w2_0:1} > 0.
            val_w2_0 :- out_w2_g2, gate_g2_and, count{val_w0_0:1} > 0.
            val_w3_0 :- out_w3_g1, gate_g1_and, count{val_w1_0:1, val_w2_0:1} > 0.
            val_w3_0 :- out_w3_g2, gate_g2_and, count{val_w0_0:1} > 0.
        ",
        answer_sets: "
            {in_w1_g1, in_w2_g1, in_w0_g2, out_w0_g1, out_w3_g2, gate_g1_and, gate_g2_and, val_w1_0, val_w2_1,
             val_w0_0, val_w3_0}
        ",
    },
    Example {
        title: "Control of companies by one sum",
        reckoning: Reckoning::House,
        basis: Basis::Stated,
        statements: "
            owns_a_b owns_a_c owns_b_c owns_c_b stk_a_a_b stk_a_a_c stk_b_b_c stk_c_c_b stk_a_b_c
            stk_a_c_b stk_b_c_b stk_c_b_c controls_a_b controls_a_c controls_b_c controls_c_b
        ",
        rules: "
            owns_a_b.
            owns_a_c.
            owns_b_c.
            owns_c_b.
            stk_a_a_b :- owns_a_b.
            stk_a_a_c :- owns_a_c.
            stk_b_b_c :- owns_b_c.
            stk_c_c_b :- owns_c_b.
            stk_a_b_c :- controls_a_b, owns_b_c.
            stk_a_c_b :- controls_a_c, owns_c_b.
            stk_b_c_b :- controls_b_c, owns_c_b.
            stk_c_b_c :- controls_c_b, owns_b_c.
            controls_a_b :- sum{stk_a_a_b:51, stk_a_c_b:21} > 50.
            controls_a_c :- sum{stk_a_a_c:51, stk_a_b_c:21} > 50.
            controls_b_c :- sum{stk_b_b_c:21} > 50.
            controls_c_b :- sum{stk_c_c_b:21} > 50.
        ",
        answer_sets: "",
    },
    Example {
        title: "Control of companies by one sum, with the sum named first",
        reckoning: Reckoning::House,
        basis: Basis::Stated,
        statements: "
            owns_a_b owns_a_c owns_b_c owns_c_b stk_a_a_b stk_a_a_c stk_b_b_c stk_c_c_b stk_a_b_c
            stk_a_c_b stk_b_c_b stk_c_b_c controls_a_b controls_a_c controls_b_c controls_c_b
        ",
        rules: "
            owns_a_b.
            owns_a_c.
            owns_b_c.
            owns_c_b.
            stk_a_a_b :- owns_a_b.
            stk_a_a_c :- owns_a_c.
            stk_b_b_c :- owns_b_c.
            stk_c_c_b :- owns_c_b.
            stk_a_b_c :- controls_a_b, owns_b_c.
            stk_a_c_b :- controls_a_c, owns_c_b.
            stk_b_c_b :- controls_b_c, owns_c_b.
            stk_c_b_c :- controls_c_b, owns_b_c.
            controls_a_b :- sum{stk_a_a_b:51, stk_a_c_b:21} = 51.
            controls_a_b :- sum{stk_a_a_b:51, stk_a_c_b:21} = 72.
            controls_a_c :- sum{stk_a_a_c:51, stk_a_b_c:21} = 51.
            controls_a_c :- sum{stk_a_a_c:51, stk_a_b_c:21} = 72.
        ",
        answer_sets: "",
    },
    Example {
        title: "Control of companies round by round",
        reckoning: Reckoning::House,
        basis: Basis::StatedInPart,
        statements: "
            may_a_a_b_1 may_a_a_c_1 controls_a_b_1 controls_a_c_1 may_a_a_b_2 may_a_a_c_2 may_a_b_c_2
            may_a_c_b_2 controls_a_b_2 controls_a_c_2 may_a_a_b_3 may_a_a_c_3 may_a_b_c_3 may_a_c_b_3
            controls_a_b_3 controls_a_c_3 controls_a_b controls_a_c
        ",
        rules: "
            may_a_a_b_1.
            may_a_a_c_1.
            controls_a_b_1 :- sum{may_a_a_b_1:51} > 50.
            controls_a_c_1 :- sum{may_a_a_c_1:51} > 50.
            may_a_a_b_2 :- not controls_a_b_1.
            may_a_a_c_2 :- not controls_a_c_1.
            may_a_b_c_2 :- controls_a_b_1, not controls_a_c_1.
            may_a_c_b_2 :- controls_a_c_1, not controls_a_b_1.
            controls_a_b_2 :- controls_a_b_1.
            controls_a_b_2 :- sum{may_a_a_b_2:51, may_a_c_b_2:21} > 50.
            controls_a_c_2 :- controls_a_c_1.
            controls_a_c_2 :- sum{may_a_a_c_2:51, may_a_b_c_2:21} > 50.
            may_a_a_b_3 :- not controls_a_b_2.
            may_a_a_c_3 :- not controls_a_c_2.
            may_a_b_c_3 :- controls_a_b_2, not controls_a_c_2.
            may_a_c_b_3 :- controls_a_c_2, not controls_a_b_2.
            controls_a_b_3 :- controls_a_b_2.
            controls_a_b_3 :- sum{may_a_a_b_3:51, may_a_c_b_3:21} > 50.
            controls_a_c_3 :- controls_a_c_2.
            controls_a_c_3 :- sum{may_a_a_c_3:51, may_a_b_c_3:21} > 50.
            controls_a_b :- controls_a_b_1.
            controls_a_b :- controls_a_b_2.
            controls_a_b :- controls_a_b_3.
            controls_a_c :- controls_a_c_1.
            controls_a_c :- controls_a_c_2.
            controls_a_c :- controls_a_c_3.
        ",
        answer_sets: "
            {may_a_a_b_1, may_a_a_c_1, controls_a_b_1, controls_a_c_1, controls_a_b_2, controls_a_c_2,
             controls_a_b_3, controls_a_c_3, controls_a_b, controls_a_c}
        ",
    },
    Example {
        title: "Control of companies that own no shares of each other",
        reckoning: Reckoning::House,
        basis: Basis::WorkedOut,
        statements: "
            owns_a_b owns_a_c owns_b_c stk_a_a_b stk_a_a_c stk_b_b_c stk_a_b_c controls_a_b
            controls_a_c controls_b_c
        ",
        rules: "
            owns_a_b.
            owns_a_c.
            owns_b_c.
            stk_a_a_b :- owns_a_b.
            stk_a_a_c :- owns_a_c.
            stk_b_b_c :- owns_b_c.
            stk_a_b_c :- controls_a_b, owns_b_c.
            controls_a_b :- sum{stk_a_a_b:60} > 50.
            controls_a_c :- sum{stk_a_a_c:30, stk_a_b_c:30} > 50.
            controls_b_c :- sum{stk_b_b_c:30} > 50.
        ",
        answer_sets: "
            {owns_a_b, owns_a_c, owns_b_c, stk_a_a_b, stk_a_a_c, stk_b_b_c, stk_a_b_c, controls_a_b,
             controls_a_c}
        ",
    },
    Example {
        title: "A number over what has no rule",
        reckoning: Reckoning::House,
        basis: Basis::StatedInPart,
        statements: "q_0 p_0",
        rules: "
            p_0 :- count{q_0:1} >= 0.
        ",
        answer_sets: "
            {p_0}
        ",
    },
    Example {
        title: "A number over another than the one it speaks of",
        reckoning: Reckoning::House,
        basis: Basis::WorkedOut,
        statements: "p_0 p_1 p_2 q_0",
        rules: "
            p_0.
            q_0 :- count{p_0:1, p_2:1} > 0.
        ",
        answer_sets: "
            {p_0, q_0}
        ",
    },
    Example {
        title: "A circle of predicates that is none of statements",
        reckoning: Reckoning::House,
        basis: Basis::StatedInPart,
        statements: "p_a p_b q_b",
        rules: "
            p_a :- q_b.
            q_b :- count{p_b:1} = 0.
        ",
        answer_sets: "
            {p_a, q_b}
        ",
    },
    Example {
        title: "Sums of pairs for each of three",
        reckoning: Reckoning::House,
        basis: Basis::StatedElsewhere,
        statements: "q_a q_b q_c row_a_1_a row_b_m1_a row_b_1_a row_b_1_b row_c_0_a p_a p_b p_c",
        rules: "
            q_a.
            q_b.
            q_c.
            row_a_1_a.
            row_b_m1_a.
            row_b_1_a.
            row_b_1_b.
            row_c_0_a.
            p_a :- q_a, sum{row_a_1_a:1} >= 1.
            p_b :- q_b, sum{row_b_m1_a:-1, row_b_1_a:1, row_b_1_b:1} >= 1.
            p_c :- q_c, sum{row_c_0_a:0} >= 1.
        ",
        answer_sets: "
            {q_a, q_b, q_c, row_a_1_a, row_b_m1_a, row_b_1_a, row_b_1_b, row_c_0_a, p_a, p_b}
        ",
    },
    Example {
        title: "Sums of first parts for each of three",
        reckoning: Reckoning::House,
        basis: Basis::StatedElsewhere,
        statements: "
            q_a q_b q_c row_a_1_a row_b_m1_a row_b_1_a row_b_1_b row_c_0_a y_a_1 y_b_m1 y_b_1 y_c_0
            s_a s_b s_c
        ",
        rules: "
            q_a.
            q_b.
            q_c.
            row_a_1_a.
            row_b_m1_a.
            row_b_1_a.
            row_b_1_b.
            row_c_0_a.
            y_a_1 :- row_a_1_a.
            y_b_m1 :- row_b_m1_a.
            y_b_1 :- row_b_1_a.
            y_b_1 :- row_b_1_b.
            y_c_0 :- row_c_0_a.
            s_a :- q_a, sum{y_a_1:1} >= 1.
            s_b :- q_b, sum{y_b_m1:-1, y_b_1:1} >= 1.
            s_c :- q_c, sum{y_c_0:0} >= 1.
        ",
        answer_sets: "
            {q_a, q_b, q_c, row_a_1_a, row_b_m1_a, row_b_1_a, row_b_1_b, row_c_0_a, y_a_1, y_b_m1, y_b_1, y_c_0,
             s_a}
        ",
    },
    Example {
        title: "One sum of pairs over all",
        reckoning: Reckoning::House,
        basis: Basis::StatedElsewhere,
        statements: "row_a_1_a row_b_m1_a row_b_1_a row_b_1_b row_c_0_a pair_1_a pair_m1_a pair_1_b pair_0_a t",
        rules: "
            row_a_1_a.
            row_b_m1_a.
            row_b_1_a.
            row_b_1_b.
            row_c_0_a.
            pair_1_a :- row_a_1_a.
            pair_1_a :- row_b_1_a.
            pair_m1_a :- row_b_m1_a.
            pair_1_b :- row_b_1_b.
            pair_0_a :- row_c_0_a.
            t :- sum{pair_1_a:1, pair_m1_a:-1, pair_1_b:1, pair_0_a:0} >= 1.
        ",
        answer_sets: "
            {row_a_1_a, row_b_m1_a, row_b_1_a, row_b_1_b, row_c_0_a, pair_1_a, pair_m1_a, pair_1_b, pair_0_a, t}
        ",
    },
    Example {
        title: "A number of those that are both",
        reckoning: Reckoning::House,
        basis: Basis::StatedElsewhere,
        statements: "p_a p_b q_a q_b both_a both_b r_b",
        rules: "
            p_a.
            q_a.
            both_a :- p_a, q_a.
            both_b :- p_b, q_b.
            r_b :- count{both_a:1, both_b:1} >= 1.
        ",
        answer_sets: "
            {p_a, q_a, both_a, r_b}
        ",
    },
    Example {
        title: "A number of those that are both, going back into one",
        reckoning: Reckoning::House,
        basis: Basis::StatedElsewhere,
        statements: "p_a q_a both_a",
        rules: "
            p_a.
            both_a :- p_a, q_a.
            q_a :- count{both_a:1} >= 1.
        ",
        answer_sets: "
            {p_a}
        ",
    },
    Example {
        title: "The least of the even numbers",
        reckoning: Reckoning::House,
        basis: Basis::StatedInPart,
        statements: "even_0 even_2 even_4 q",
        rules: "
            even_0.
            even_2 :- even_0.
            even_4 :- even_2.
            q :- min{even_0:0, even_2:2, even_4:4} = 0.
        ",
        answer_sets: "
            {even_0, even_2, even_4, q}
        ",
    },
    Example {
        title: "A disjunction below facts",
        reckoning: Reckoning::House,
        basis: Basis::StatedInPart,
        statements: "q_1 q_2 q_3 r_1_1 r_2_2 p_1 p_2",
        rules: "
            q_1.
            q_2.
            q_3.
            r_1_1.
            r_2_2.
            p_1 | p_2 :- q_1, r_1_1, q_2, r_2_2.
        ",
        answer_sets: "
            {q_1, q_2, q_3, r_1_1, r_2_2, p_1}
            {q_1, q_2, q_3, r_1_1, r_2_2, p_2}
        ",
    },
    Example {
        title: "Two conditions on one sum that shut each other out",
        reckoning: Reckoning::House,
        basis: Basis::WorkedOut,
        statements: "p_a p_b s",
        rules: "
            p_a | p_b.
            s :- sum{p_a:6, p_b:2} > 5, sum{p_a:6, p_b:2} < 3.
        ",
        answer_sets: "
            {p_a}
            {p_b}
        ",
    },
    Example {
        title: "One statement where its own least weight is at least zero",
        reckoning: Reckoning::House,
        basis: Basis::WorkedOut,
        statements: "p_1",
        rules: "
            p_1 :- min{p_1:1} >= 0.
        ",
        answer_sets: "
            {}
        ",
    },
    Example {
        title: "One statement where the greatest of no weights is at most three",
        reckoning: Reckoning::House,
        basis: Basis::WorkedOut,
        statements: "p_1",
        rules: "
            p_1 :- max{} <= 3.
        ",
        answer_sets: "
            {}
        ",
    },
    Example {
        title: "One found, and another for the greatest weight of both",
        reckoning: Reckoning::House,
        basis: Basis::WorkedOut,
        statements: "p_a p_b",
        rules: "
            p_a.
            p_b :- max{p_a:1, p_b:2} >= 1.
        ",
        answer_sets: "",
    },
    Example {
        title: "Two statements in a circle, and weights that cancel",
        reckoning: Reckoning::House,
        basis: Basis::WorkedOut,
        statements: "p_0 p_1",
        rules: "
            p_1 :- p_0.
            p_0 :- p_1.
            p_1 :- sum{p_0:-1, p_1:1} = 0.
        ",
        answer_sets: "",
    },
    Example {
        title: "One statement where its own number is even",
        reckoning: Reckoning::Bench,
        basis: Basis::WorkedOut,
        statements: "p_1",
        rules: "
            p_1 :- odd{p_1:1} = 0.
        ",
        answer_sets: "",
    },
    Example {
        title: "Two odd gates in a row",
        reckoning: Reckoning::Bench,
        basis: Basis::WorkedOut,
        statements: "val_w1 val_w2 val_w4 val_w0 val_w3",
        rules: "
            val_w1.
            val_w4.
            val_w0 :- odd{val_w1:1, val_w2:1} = 1.
            val_w3 :- odd{val_w0:1, val_w4:1} = 1.
        ",
        answer_sets: "
            {val_w1, val_w4, val_w0}
        ",
    },
    Example {
        title: "One statement where its own spread is at least zero",
        reckoning: Reckoning::Bench,
        basis: Basis::WorkedOut,
        statements: "p_1",
        rules: "
            p_1 :- spread{p_1:1} >= 0.
        ",
        answer_sets: "
            {}
        ",
    },
    Example {
        title: "A spread that two statements would bring about together",
        reckoning: Reckoning::Bench,
        basis: Basis::WorkedOut,
        statements: "p_1 p_2 p_3",
        rules: "
            p_1.
            p_3 :- spread{p_1:1, p_2:2, p_3:3} >= 1.
            p_2 :- spread{p_1:1, p_2:2, p_3:3} >= 1.
        ",
        answer_sets: "
            {p_1}
        ",
    },
];

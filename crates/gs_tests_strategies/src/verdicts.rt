//! Verdicts and best answers (best responses) of small games. They are compared with the gaps that a separate program found by trying every pure raw plan
//! of each player. The last two games have too many pure plans to try: for their gaps the separate program used its own best answers.

ghost use Rattle.std.specs.Prelude.{◌≤◌, ◌<◌};
ghost use Rattle.gs_model.specs.Frame.{other_player};
ghost use Rattle.gs_seq.specs.{Abstracts.{abstract_frame, lists_of}, Plans.{IsPlanOf}};

use crate::rows::{agree, over_form, plan_in};
use gs_best::{Work, best, choices, verdict};
use gs_frac::Verdict;
use gs_samples::numbers_in;
use gs_seq::{Abstract, Plan};
use std::alloc::{AllocError, Global};
use std::test::Fail;

// One game a line: the game, its classes and two plans; value and gaps; the weights and the choices of player 1's best answer to player 2's plan; and those
// of player 2's best answer to player 1's plan. The best answers are those of the separate program. Only the last line leaves them out.
const GAMES: &str = "\
JQK, s, high, 1 0 kuhn|1 2 3|1|first|1|first|0 1 1 1 1 1|0 1 0 1 1 0 0 0 0 0 1 0|1 1 0 0 0 0|0 1 0 1 1 0 1 0 1 0 1 0|1 1 0 0 0 0
JQK, s, high, 1 0 kuhn|1 2 3|2|1 1 1 1 2 0 1 0 1 0 2 0|2|1 1 1 1 2 0 2 0 2 0 2 0|1 12 13 12 7 6|0 1 0 1 1 0 0 0 0 0 0 1|1 1 0 0 1 1|0 1 0 1 1 0 1 0 0 1 0 \
    1|1 1 0 0 1 1
JQK, s, high, 1 0 kuhn|1 2 3|1|0 1 0 1 0 1 0 0 0 0 0 0|1|first|1 1 0 1 4 3|0 1 0 1 1 0 0 0 0 0 1 0|1 1 0 0 0 0|1 0 1 0 1 0 1 0 0 1 0 1|0 0 0 0 1 1
JK, sh, high, 1 0 1[k:2[k:=,b1:1[f:!,c1:=]],b3:2[f:!,c3:=]]|1 1 2 2|2|2 0 2 0 0 2 0 2|3|3 0 3 0 2 1 3 0|0 1 23 18 1 3|0 1 0 1 0 0 0 0|1 1 0 0|1 0 0 1 1 0 1 \
    0|0 1 0 0
QK, sh, high, 1 0 1[k:2[k:=,b2:1[f:!,c2:=]]]|1 1 2 2|3|3 3 3 0 2 1|3|1 2 1 2|-1 3 2 3 1 6|1 1 1 0 0 1|0 0 0 1|0 1 0 1|1 1
QKA, sh, high, 1 0 1[k:2[k:=,b2:1[f:!,c2:=]]]|1 1 2 2 3 3|12|12 12 12 12 0 0 12 0 12|7|7 0 0 7 6 1|8 35 0 1 52 105|1 1 1 1 0 0 1 0 1|0 0 0 0 1 1|1 0 1 0 0 \
    1|0 0 1
QK, shd, high, 1 0 2[k:=,b1:1[f:!,c1:=]]|1 1 1 2 2 2|1|1 0 1 0|1|1 0 1 0|0 1 0 1 1 1|1 0 1 0|0 0|0 1 0 1|1 1
JA, sh, high, 1 0 1[k:=,b1:2[f:!,c1:=]], 0 1 =|1 1 2 2/1 2 2 1 2 2 3 3 4 3 3 4|3|0 3 3 0|3|0 3 3 0|2 3 1 2 1 1|0 1 0 1|1 1|0 1 0 1|1 1
JQ, shd, high, 1 0 kuhn|1 1 1 2 2 2|6|1 5 4 2 1 0 1 3|6|1 5 1 5 5 1 2 4|59 360 91 360 25 72|0 1 1 0 0 0 0 1|1 0 0 1|1 0 0 1 0 1 0 1|0 1 1 1
QA, sh, high, 1 0 =, 0 1 2[k:=,b2:1[f:!,c2:=]]|1 1 2 2/1 2 2 1 2 2 3 3 4 3 3 4|1|1 0 1 0 0 1 0 1|3|3 0 0 3 0 3 3 0|1 6 1 6 1 6|1 0 0 1 0 1 0 1|0 1 1 1|1 0 \
    1 0 1 0 1 0|0 0 0 0
JKA, sh, high, 1 0 1[k:=,b1:2[f:!,c1:=]]|1 1 2 2 3 3|1|1 0 1 0 0 1|12|2 10 0 12 12 0|14 45 47 90 14 45|0 1 0 1 0 1|1 1 1|1 0 1 0 0 1|0 0 1
JQ, sh, high, 1 0 1[k:=,f:!], 0 1 2[k:=,f:!]|1 1 2 2/1 2 2 1 2 2 3 3 4 3 3 4|12|12 0 0 12|7|3 4 7 0 0 7 6 1|-19 42 1 1 8 21|1 0 1 0|0 0|1 0 1 0 1 0 1 0|0 0 \
    0 0
KA, sh, pair, 1 0 2[k:=,b1:1[f:!,c1:=]], 0 1 =|1 1 1 1/1 2 2 1 2 2 2 2 1 2 2 1|3|1 2|2|1 1|-1 6 1 6 1 6|0 1|1|0 1|1
JKA, sh, high, 1 0 1[k:2[k:=,b1:1[f:!,c1:=]],b3:2[f:!,c3:=]]|1 1 2 2 3 3|1|1 0 1 0 1 0 1 0 1 0 1 0|1|1 0 1 0 1 0 1 0 1 0 1 0|0 1 1 1 1 1|0 1 0 1 0 1 0 0 0 \
    0 0 0|1 1 1 0 0 0|0 1 0 1 0 1 1 0 1 0 1 0|1 1 1 0 0 0
QK, sh, high, 1 0 1[k:=,b1:2[f:!,c1:=]]|1 1 2 2|3|3 0 0 3|3|0 3 3 0|1 2 2 3 1 2|0 1 0 1|1 1|1 0 0 1|0 1
JA, sh, high, 1 0 2[k:=,b1:1[f:!,c1:=]]|1 1 2 2|7|0 7 7 0|1|0 1 0 1|-7 6 4 3 0 1|1 0 0 1|0 1|0 1 0 1|1 1
JQ, sh, pair, 1 0 2[k:=,b1:1[f:!,c1:=]], 0 1 =|1 1 1 1/1 2 2 1 2 2 2 2 1 2 2 1|2|2 0|2|1 1|-1 2 1 2 1 2|0 1|1|0 1|1
JK, sh, high, 1 0 1[k:=,f:!], 0 1 2[k:=,f:!]|1 1 2 2/1 2 2 1 2 2 3 3 4 3 3 4|1|1 0 1 0|1|1 0 1 0 1 0 1 0|0 1 0 1 0 1|1 0 1 0|0 0|1 0 1 0 1 0 1 0|0 0 0 0
QK, sh, high, 1 0 1[k:2[k:=,b1:1[f:!,c1:=]],b3:2[f:!,c3:=]]|1 1 2 2|1|1 0 1 0 1 0 1 0|1|1 0 1 0 1 0 1 0|0 1 1 1 1 1|0 1 0 1 0 0 0 0|1 1 0 0|0 1 0 1 1 0 1 \
    0|1 1 0 0
JKA, sh, high, 1 0 2[k:=,b1:1[f:!,c1:=]]|1 1 2 2 3 3|2|2 0 2 0 2 0|2|1 1 1 1 1 1|-1 2 3 5 1 2|1 0 0 1 0 1|0 1 1|0 1 0 1 0 1|1 1 1
KA, sh, high, 1 0 2[k:1[k:=,b1:2[f:!,c1:=]],b1:1[f:!,c1:=]]|1 1 2 2|1|0 1 1 0 0 1 1 0|1|0 1 1 0 0 0 0 1|-1 1 4 3 1 6|1 0 1 0 0 1 0 1|0 0 1 1|0 1 0 1 0 0 0 \
    0|1 1 1 1
JA, sh, high, 1 0 1[k:2[k:=,b2:1[f:!,c2:=]]]|1 1 2 2|6|6 6 6 0 2 4|6|1 5 1 5|0 1 5 12 1 18|1 1 1 0 0 1|0 0 0 1|1 0 0 1|0 1
QK, sh, high, 1 0 2[k:1[k:=,b1:2[f:!,c1:=]],b1:1[f:!,c1:=]]|1 1 2 2|2|2 0 1 1 2 0 2 0|12|0 12 12 0 0 0 12 0|-3 4 23 12 1 4|0 1 0 1 0 1 0 1|1 1 1 1|0 1 0 1 \
    0 0 0 0|1 1 0 1
QA, sh, high, 1 0 1[k:2[k:=,b2:1[f:!,c2:=]]]|1 1 2 2|2|2 2 2 0 2 0|2|1 1 1 1|-1 2 3 4 1 2|1 1 1 0 0 1|0 0 0 1|0 1 0 1|1 1
JQA, shd, pair, 1 0 1[k:=,b1:2[f:!,c1:=]], 0 1 =|1 1 1 2 2 2 3 3 3/1 1 2 2 2 3 3 3 1 1 2 2 2 3 3 3 1 1 2 2 2 3 3 3 4 4 4 5 5 6 6 6 4 4 4 5 5 6 6 6 4 4 4 5 \
    5 6 6 6 7 7 7 8 8 8 9 9 7 7 7 8 8 8 9 9 7 7 7 8 8 8 9 9|6|1 5 1 5 1 5|6|2 4 2 4 2 4|5 18 1 18 5 18|0 1 0 1 0 1|1 1 1|0 1 0 1 0 1|1 1 1
JK, sh, high, 1 0 2[k:=,b1:1[f:!,c1:=]]|1 1 2 2|6|6 0 2 4|6|1 5 1 5|-5 27 35 108 1 27|1 0 0 1|0 1|0 1 0 1|1 1
JK, shd, high, 1 0 1[k:=,b1:2[f:!,c1:=]], 0 1 =|1 1 1 2 2 2/1 1 2 2 2 1 1 2 2 2 1 1 2 2 2 3 3 3 4 4 3 3 3 4 4 3 3 3 4 4|2|2 0 2 0|3|0 3 3 0|0 1 11 10 0 1|0 \
    1 0 1|1 1|1 0 1 0|0 0
QA, sh, high, 1 0 2[k:=,b1:1[f:!,c1:=]], 0 1 =|1 1 2 2/1 2 2 1 2 2 3 3 4 3 3 4|12|0 12 12 0|12|0 12 8 4|-5 6 19 18 1 3|0 1 0 1|1 1|0 1 0 1|1 1
JA, shd, high, 1 0 1[k:=,b1:2[f:!,c1:=]]|1 1 1 2 2 2|7|7 0 7 0|2|0 2 2 0|0 1 11 10 0 1|0 1 0 1|1 1|1 0 1 0|0 0
QKA, sh, high, 1 0 1[k:=,b1:2[f:!,c1:=]]|1 1 2 2 3 3|3|0 3 2 1 3 0|2|0 2 0 2 2 0|4 15 3 5 8 15|0 1 0 1 0 1|1 1 1|0 1 0 1 0 1|1 1 1
QK, sh, pair, 1 0 2[k:=,b1:1[f:!,c1:=]], 0 1 =|1 1 1 1/1 2 2 1 2 2 2 2 1 2 2 1|1|1 0|1|1 0|0 1 0 1 1 1|1 0|0|0 1|1
JQ, sh, pair, 1 0 =, 0 1 1[k:=,b1:2[f:!,c1:=]]|1 1 1 1/1 2 2 1 2 2 2 2 1 2 2 1|2|2 0 2 0|3|1 2 0 3|0 1 1 3 0 1|0 1 1 0|1 0|1 0 1 0|0 0
JQK, sh, high, 1 0 1[k:=,b1:2[f:!,c1:=]], 0 1 =|1 1 2 2 3 3/1 2 2 3 3 1 2 2 3 3 4 4 5 6 6 4 4 5 6 6 7 7 8 8 9 7 7 8 8 9|3|3 0 3 0 3 0|12|0 12 0 12 4 8|0 1 \
    19 45 0 1|1 0 0 1 0 1|0 1 1|1 0 1 0 1 0|0 0 0
JQ, sh, high, 1 0 =, 0 1 1[k:=,b1:2[f:!,c1:=]]|1 1 2 2/1 2 2 1 2 2 3 3 4 3 3 4|3|1 2 1 2 1 2 3 0|3|3 0 2 1 2 1 2 1|10 27 13 54 16 27|0 1 0 1 0 1 0 1|1 1 1 \
    1|1 0 0 1 0 1 0 1|0 1 1 1
JQ, sh, high, 1 0 kuhn|1 1 2 2|2|0 2 2 0 0 0 0 2|12|12 0 12 0 9 3 12 0|19 24 1 4 9 8|0 1 0 1 0 0 0 0|1 1 0 0|1 0 1 0 0 1 0 1|0 0 1 1
JK, sh, pair, 1 0 =, 0 1 1[k:=,b1:2[f:!,c1:=]]|1 1 1 1/1 2 2 1 2 2 2 2 1 2 2 1|2|2 0 2 0|7|0 7 4 3|0 1 1 7 0 1|0 1 1 0|1 0|1 0 1 0|0 0
JK, sh, high, 1 0 kuhn|1 1 2 2|3|1 2 2 1 1 0 1 1|3|1 2 1 2 3 0 2 1|2 9 1 2 5 9|0 1 1 0 0 0 0 1|1 0 0 1|0 1 0 1 1 0 0 1|1 1 0 1
JA, shd, high, 1 0 1[f:!,k:2[k:=,b1:1[f:!,c1:=]]]|1 1 1 2 2 2|1|1 0 0 1 0 0 1 0|2|2 0 2 0|-1 5 1 5 4 5|0 1 0 1 1 0 1 0|1 1 0 0|0 1 0 1|1 1
JQK, sh, high, 1 0 1[k:2[k:=,b1:1[f:!,c1:=]],b3:2[f:!,c3:=]]|1 1 2 2 3 3|12|11 1 12 0 0 12 0 11 0 12 0 0|2|0 2 1 1 2 0 0 2 2 0 2 0|7 12 23 20 29 30|0 1 0 1 \
    0 1 0 0 0 0 0 0|1 1 1 0 1 1|1 0 0 1 0 1 1 0 1 0 0 1|0 1 1 0 0 1
JA, sh, high, 1 0 =, 0 1 2[k:=,b2:1[f:!,c2:=]]|1 1 2 2/1 2 2 1 2 2 3 3 4 3 3 4|2|2 0 2 0 2 0 2 0|2|1 1 1 1 1 1 2 0|-1 2 5 6 1 2|1 0 0 1 0 1 0 1|0 1 1 1|0 1 \
    0 1 0 1 1 0|1 1 1 0
JA, shd, high, 1 0 2[k:=,b1:1[f:!,c1:=]]|1 1 1 2 2 2|6|6 0 2 4|6|1 5 1 5|-2 9 11 36 2 45|1 0 0 1|0 1|0 1 0 1|1 1
JQ, sh, high, 1 0 2[k:=,b1:1[f:!,c1:=]]|1 1 2 2|12|12 0 12 0|1|1 0 0 1|-1 6 1 6 5 6|1 0 0 1|0 1|0 1 0 1|1 1
QK, sh, high, 1 0 kuhn|1 1 2 2|3|1 2 3 0 0 1 1 2|1|1 0 1 0 0 1 0 1|-2 9 5 9 1 6|1 0 0 1 1 0 0 0|0 1 0 0|1 0 0 1 0 1 0 1|0 1 1 1
QK, shd, high, 1 0 kuhn|1 1 1 2 2 2|1|1 0 1 0 1 0 1 0|1|1 0 1 0 1 0 1 0|0 1 1 1 1 1|0 1 0 1 0 0 0 0|1 1 0 0|0 1 0 1 1 0 1 0|1 1 0 0
QK, sh, pair, 1 0 1[k:=,b1:2[f:!,c1:=]], 0 1 =|1 1 1 1/1 2 2 1 2 2 2 2 1 2 2 1|3|1 2|3|2 1|4 9 2 9 4 9|0 1|1|0 1|1
JA, sh, high, 1 0 2[k:=,b1:1[f:!,c1:=]], 0 1 =|1 1 2 2/1 2 2 1 2 2 3 3 4 3 3 4|3|3 0 1 2|1|1 0 1 0|0 1 0 1 2 9|1 0 1 0|0 0|0 1 0 1|1 1
JK, sh, high, 1 0 1[k:2[k:=,b2:1[f:!,c2:=]]]|1 1 2 2|2|2 2 2 0 2 0|2|1 1 1 1|-1 2 3 4 1 2|1 1 1 0 0 1|0 0 0 1|0 1 0 1|1 1
JA, shd, high, 1 0 2[k:=,b1:1[f:!,c1:=]], 0 1 =|1 1 1 2 2 2/1 1 2 2 2 1 1 2 2 2 1 1 2 2 2 3 3 3 4 4 3 3 3 4 4 3 3 3 4 4|6|6 0 2 4|6|1 5 1 5|-2 9 11 36 2 \
    45|1 0 0 1|0 1|0 1 0 1|1 1
JK, sh, pair, 1 0 =, 0 1 2[k:=,b2:1[f:!,c2:=]]|1 1 1 1/1 2 2 1 2 2 2 2 1 2 2 1|1|0 1 1 0|2|2 0 0 2|1 3 1 3 1 3|0 1 0 1|1 1|1 0 1 0|0 0
JA, sh, high, 1 0 kuhn|1 1 2 2|6|1 5 5 1 1 0 1 4|6|2 4 1 5 4 2 2 4|11 72 13 72 29 72|0 1 1 0 0 0 0 1|1 0 0 1|1 0 0 1 0 1 0 1|0 1 1 1
QA, sh, high, 1 0 1[f:!,k:2[k:=,b1:1[f:!,c1:=]]]|1 1 2 2|2|2 0 0 2 0 0 2 0|3|0 3 1 2|-17 18 10 9 1 18|1 0 0 1 0 0 0 1|0 1 0 1|0 1 0 1|1 1
KA, sh, high, 1 0 1[k:2[k:=,b2:1[f:!,c2:=]]]|1 1 2 2|2|2 2 2 0 2 0|2|1 1 1 1|-1 2 3 4 1 2|1 1 1 0 0 1|0 0 0 1|0 1 0 1|1 1
JA, shd, high, 1 0 1[k:2[k:=,b1:1[f:!,c1:=]],b3:2[f:!,c3:=]]|1 1 1 2 2 2|1|1 0 1 0 1 0 1 0|1|1 0 1 0 1 0 1 0|0 1 1 1 1 1|0 1 0 1 0 0 0 0|1 1 0 0|0 1 0 1 1 \
    0 1 0|1 1 0 0
QKA, sh, high, 1 0 1[k:2[k:=,b1:1[f:!,c1:=]],b3:2[f:!,c3:=]]|1 1 2 2 3 3|3|1 2 1 2 2 1 1 0 1 0 1 1|3|1 2 1 2 1 2 3 0 2 1 2 1|8 135 49 135 25 27|0 1 0 1 1 0 \
    0 0 0 0 0 1|1 1 0 0 1 1|0 1 0 1 0 1 1 0 0 1 0 1|1 1 1 0 1 1
JA, sh, high, 1 0 1[k:2[k:=,b1:1[f:!,c1:=]],b3:2[f:!,c3:=]]|1 1 2 2|7|3 4 7 0 2 1 5 2|12|3 9 0 12 0 12 12 0|-3 28 163 84 89 84|0 1 0 1 0 0 0 0|1 1 0 1|0 1 \
    0 1 0 1 0 1|1 1 1 1
QK, sh, high, 1 0 =, 0 1 1[k:=,b1:2[f:!,c1:=]]|1 1 2 2/1 2 2 1 2 2 3 3 4 3 3 4|2|2 0 2 0 0 2 2 0|12|0 12 7 5 12 0 12 0|1 3 5 6 1 3|0 1 0 1 0 1 0 1|1 1 1 \
    1|1 0 1 0 0 1 1 0|0 0 1 0
QA, sh, high, 1 0 1[k:2[k:=,b1:1[f:!,c1:=]],b3:2[f:!,c3:=]]|1 1 2 2|7|3 4 5 2 0 3 5 0|7|0 7 7 0 7 0 0 7|-20 21 9 7 11 42|1 0 1 0 0 1 0 1|0 0 1 1|0 1 0 1 1 \
    0 0 1|1 1 0 1
JK, shd, high, 1 0 2[k:1[k:=,b1:2[f:!,c1:=]],b1:1[f:!,c1:=]]|1 1 1 2 2 2|2|1 1 1 1 2 0 2 0|2|1 1 1 1 1 0 1 0|-1 4 4 5 3 4|0 1 0 1 1 0 0 1|1 1 0 1|0 1 0 1 0 \
    0 0 0|1 1 0 1
JQA, sh, high, 1 0 1[k:=,b1:2[f:!,c1:=]], 0 1 =|1 1 2 2 3 3/1 2 2 3 3 1 2 2 3 3 4 4 5 6 6 4 4 5 6 6 7 7 8 8 9 7 7 8 8 9|7|7 0 7 0 6 1|12|11 1 12 0 0 12|1 \
    630 257 1260 1 630|0 1 1 0 0 1|1 0 1|1 0 1 0 0 1|0 0 1
JKA, sh, high, 1 0 1[f:!,k:2[k:=,b1:1[f:!,c1:=]]]|1 1 2 2 3 3|6|1 5 1 5 1 5 5 0 2 3 2 3|6|2 4 2 4 2 4|-29 90 41 90 7 90|0 1 0 1 0 1 1 0 0 1 0 1|1 1 1 0 1 \
    1|0 1 0 1 0 1|1 1 1
QA, sh, high, 1 0 1[k:=,b1:2[f:!,c1:=]]|1 1 2 2|3|3 0 3 0|2|2 0 2 0|0 1 1 1 0 1|0 1 0 1|1 1|1 0 1 0|0 0
KA, sh, high, 1 0 1[k:2[k:=,b1:1[f:!,c1:=]],b3:2[f:!,c3:=]]|1 1 2 2|7|0 7 3 4 0 0 3 0|3|1 2 3 0 0 3 0 3|-13 21 34 21 4 7|1 0 0 1 0 1 0 0|0 1 1 1|0 1 0 1 1 \
    0 0 1|1 1 0 1
QKA, sh, high, 1 0 2[k:=,b1:1[f:!,c1:=]], 0 1 =|1 1 2 2 3 3/1 2 2 3 3 1 2 2 3 3 4 4 5 6 6 4 4 5 6 6 7 7 8 8 9 7 7 8 8 9|6|6 0 2 4 2 4|6|1 5 1 5 1 5|-1 6 1 \
    3 1 30|1 0 0 1 0 1|0 1 1|0 1 0 1 0 1|1 1 1
JK, sh, high, 1 0 1[k:2[k:=,b1:1[f:!,c1:=]]], 0 1 1[k:=,b1:2[f:!,c1:=]]|1 1 2 2/1 2 2 1 2 2 3 3 4 3 3 4|1|first|1|first|0 1 1 1 1 1|1 1 0 1 0 1 0 1 1 0 1 0 \
    1 0 0 0 0 0 0 0 0 0|0 0 1 1 1 0 0 0 0 0 0 0|0 1 0 1 0 0 0 0 0 0 0 0 1 0 1 0 1 0 1 0|1 1 0 0 0 0 0 0 0 0
JQK, sh, pair, 1 0 1[k:2[k:=,b2:1[f:!,c2:=,r4:2[f:!,c2:=]]],b2:2[f:!,c2:=,r4:1[f:!,c2:=]]], 0 1 \
    1[k:2[k:=,b4:1[f:!,c4:=,r8:2[f:!,c4:=]]],b4:2[f:!,c4:=,r8:1[f:!,c4:=]]]|1 1 2 2 3 3/1 2 2 3 3 1 2 2 3 3 4 4 5 6 6 4 4 5 6 6 7 7 8 8 9 7 7 8 8 \
    9|1|first|1|first|0 1 1 1 1 1
";

/// Returns the verdict on two plans as a text.
fn text_of(alloc: Global, form: &Abstract<'_>, one: &Plan, two: &Plan) -> Result<String, AllocError>
    requires one { IsPlanOf (abstract_frame form.now) (lists_of form.now) 1 one.now }
    requires two { IsPlanOf (abstract_frame form.now) (lists_of form.now) 2 two.now }
{
    let mut work = Work::new(alloc, form)?;
    let Verdict { value, gap1, gap2 } = verdict(form, one, two, &mut work);
    format!(in alloc;
        "{} {} {} {} {} {}",
        value.num, value.den, gap1.num, gap1.den, gap2.num, gap2.den
    )
}

/// Returns whether these are a player's choices against a plan.
fn chooses(
    alloc: Global,
    form: &Abstract<'_>,
    player: u8,
    other: &Plan,
    moves: &str,
) -> Result<bool, AllocError>
    requires some { 0 < player }
    requires two { player ≤ 2 }
    requires other { IsPlanOf (abstract_frame form.now) (lists_of form.now) (other_player player) other.now }
{
    let listed = choices(alloc, form, player, other)?;
    let wanted = numbers_in::<u8>(alloc, moves)?;
    Ok(*listed == *wanted)
}

/// Returns whether a player's best answer to a plan has these weights and these choices.
fn is_answer(
    alloc: Global,
    form: &Abstract<'_>,
    player: u8,
    other: &Plan,
    weights: &str,
    moves: &str,
) -> Result<bool, AllocError>
    requires some { 0 < player }
    requires two { player ≤ 2 }
    requires other { IsPlanOf (abstract_frame form.now) (lists_of form.now) (other_player player) other.now }
{
    let answer = best(alloc, form, player, other)?;
    let wanted = numbers_in::<u64>(alloc, weights)?;
    let same = answer.player == player && answer.total == 1 && *answer.weights == *wanted;
    Ok(same && chooses(alloc, form, player, other, moves)?)
}

/// Returns whether the best answers to two plans are those of a row, or the row has none.
fn answers_hold(
    alloc: Global,
    form: &Abstract<'_>,
    one: &Plan,
    two: &Plan,
    row: &[&str],
) -> Result<bool, AllocError>
    requires one { IsPlanOf (abstract_frame form.now) (lists_of form.now) 1 one.now }
    requires two { IsPlanOf (abstract_frame form.now) (lists_of form.now) 2 two.now }
{
    if row.len() < 9 {
        return Ok(true);
    }
    let first = is_answer(alloc, form, 1, two, row[5], row[6])?;
    Ok(first && is_answer(alloc, form, 2, one, row[7], row[8])?)
}

/// Returns the verdict on two plans as a text, if the best answers are those of a row.
fn judged_plans(
    alloc: Global,
    form: &Abstract<'_>,
    one: &Plan,
    two: &Plan,
    row: &[&str],
) -> Result<String, AllocError>
    requires one { IsPlanOf (abstract_frame form.now) (lists_of form.now) 1 one.now }
    requires two { IsPlanOf (abstract_frame form.now) (lists_of form.now) 2 two.now }
{
    if answers_hold(alloc, form, one, two, row)? {
        return text_of(alloc, form, one, two);
    }
    String::from_str(alloc, "other answers")
}

/// Returns what `judged_plans` returns for the plans of a row.
fn judged(alloc: Global, form: &Abstract<'_>, row: &[&str]) -> Result<String, Fail> {
    if row.len() < 5 {
        return Err("a row with no verdict".into());
    }
    let one = plan_in(alloc, form, 1, row[0], row[1])?;
    let two = plan_in(alloc, form, 2, row[2], row[3])?;
    Ok(judged_plans(alloc, form, &one, &two, row)?)
}

/// Returns what `judged` returns for a line, and the expected verdict.
fn told(alloc: Global, line: &str) -> Result<(String, &str), Fail> {
    let row: Vec<&str> = line.split('|').collect(alloc)?;
    if row.len() != 7 && row.len() != 11 {
        return Err("a line with too few parts or too many".into());
    }
    let others = &row[2..];
    let found = over_form(alloc, row[0], row[1], |form| judged(alloc, form, others))?;
    Ok((found, row[6]))
}

#[test]
fn verdicts_and_answers_of_small_games(rt: HostRuntime) -> Result<(), Fail> {
    for line in GAMES.lines() {
        let (found, want) = told(rt.alloc(), line)?;
        agree(rt.alloc(), found.as_str(), want, line)?;
    }
    Ok(())
}

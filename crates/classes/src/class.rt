// The class of each byte, and the first column that is not permitted.
ghost use Rattle.std.specs.Prelude.{◌≡◌, ◌≤◌, length};
ghost use Rattle.paper_record.specs.Class.{class_of, class_table, permitted_in, permitted_to};
ghost use Rattle.paper_record.specs.Columns.{Whole};

// 0 not permitted, 1 blank, 2 digit, 3 capital, 4 small, 5 special; beside each the byte.
static CLASSES: [u8; 256] = [
    0, // 0
    0, // 1
    0, // 2
    0, // 3
    0, // 4
    0, // 5
    0, // 6
    0, // 7
    0, // 8
    0, // 9
    0, // 10
    0, // 11
    0, // 12
    0, // 13
    0, // 14
    0, // 15
    0, // 16
    0, // 17
    0, // 18
    0, // 19
    0, // 20
    0, // 21
    0, // 22
    0, // 23
    0, // 24
    0, // 25
    0, // 26
    0, // 27
    0, // 28
    0, // 29
    0, // 30
    0, // 31
    1, // 32 blank
    5, // 33 !
    0, // 34 "
    0, // 35 #
    0, // 36 $
    5, // 37 %
    5, // 38 &
    5, // 39 '
    5, // 40 (
    5, // 41 )
    5, // 42 *
    5, // 43 +
    5, // 44 ,
    5, // 45 -
    5, // 46 .
    5, // 47 /
    2, // 48 0
    2, // 49 1
    2, // 50 2
    2, // 51 3
    2, // 52 4
    2, // 53 5
    2, // 54 6
    2, // 55 7
    2, // 56 8
    2, // 57 9
    5, // 58 :
    5, // 59 ;
    5, // 60 <
    5, // 61 =
    5, // 62 >
    5, // 63 ?
    0, // 64 @
    3, // 65 A
    3, // 66 B
    3, // 67 C
    3, // 68 D
    3, // 69 E
    3, // 70 F
    3, // 71 G
    3, // 72 H
    3, // 73 I
    3, // 74 J
    3, // 75 K
    3, // 76 L
    3, // 77 M
    3, // 78 N
    3, // 79 O
    3, // 80 P
    3, // 81 Q
    3, // 82 R
    3, // 83 S
    3, // 84 T
    3, // 85 U
    3, // 86 V
    3, // 87 W
    3, // 88 X
    3, // 89 Y
    3, // 90 Z
    0, // 91 [
    0, // 92 \
    0, // 93 ]
    0, // 94 ^
    0, // 95 _
    0, // 96 `
    4, // 97 a
    4, // 98 b
    4, // 99 c
    4, // 100 d
    4, // 101 e
    4, // 102 f
    4, // 103 g
    4, // 104 h
    4, // 105 i
    4, // 106 j
    4, // 107 k
    4, // 108 l
    4, // 109 m
    4, // 110 n
    4, // 111 o
    4, // 112 p
    4, // 113 q
    4, // 114 r
    4, // 115 s
    4, // 116 t
    4, // 117 u
    4, // 118 v
    4, // 119 w
    4, // 120 x
    4, // 121 y
    4, // 122 z
    0, // 123 {
    0, // 124 |
    0, // 125 }
    0, // 126 ~
    0, // 127
    0, // 128
    0, // 129
    0, // 130
    0, // 131
    0, // 132
    0, // 133
    0, // 134
    0, // 135
    0, // 136
    0, // 137
    0, // 138
    0, // 139
    0, // 140
    0, // 141
    0, // 142
    0, // 143
    0, // 144
    0, // 145
    0, // 146
    0, // 147
    0, // 148
    0, // 149
    0, // 150
    0, // 151
    0, // 152
    0, // 153
    0, // 154
    0, // 155
    0, // 156
    0, // 157
    0, // 158
    0, // 159
    0, // 160
    0, // 161
    0, // 162
    0, // 163
    0, // 164
    0, // 165
    0, // 166
    0, // 167
    0, // 168
    0, // 169
    0, // 170
    0, // 171
    0, // 172
    0, // 173
    0, // 174
    0, // 175
    0, // 176
    0, // 177
    0, // 178
    0, // 179
    0, // 180
    0, // 181
    0, // 182
    0, // 183
    0, // 184
    0, // 185
    0, // 186
    0, // 187
    0, // 188
    0, // 189
    0, // 190
    0, // 191
    0, // 192
    0, // 193
    0, // 194
    0, // 195
    0, // 196
    0, // 197
    0, // 198
    0, // 199
    0, // 200
    0, // 201
    0, // 202
    0, // 203
    0, // 204
    0, // 205
    0, // 206
    0, // 207
    0, // 208
    0, // 209
    0, // 210
    0, // 211
    0, // 212
    0, // 213
    0, // 214
    0, // 215
    0, // 216
    0, // 217
    0, // 218
    0, // 219
    0, // 220
    0, // 221
    0, // 222
    0, // 223
    0, // 224
    0, // 225
    0, // 226
    0, // 227
    0, // 228
    0, // 229
    0, // 230
    0, // 231
    0, // 232
    0, // 233
    0, // 234
    0, // 235
    0, // 236
    0, // 237
    0, // 238
    0, // 239
    0, // 240
    0, // 241
    0, // 242
    0, // 243
    0, // 244
    0, // 245
    0, // 246
    0, // 247
    0, // 248
    0, // 249
    0, // 250
    0, // 251
    0, // 252
    0, // 253
    0, // 254
    0, // 255
];

// The table of classes, which lies in one place for all.
#[derive(Clone, Copy)]
pub struct Classes {
    table: &'static [u8; 256],
    ghost same: { table.now ≡ class_table },
}

impl Classes {
    pub fn new() -> Self
        ensures { result.table.now ≡ class_table }
    {
        Classes { table: &CLASSES }
    }

    // The class of a byte.
    pub fn class_of(&self, b: u8) -> u8
        ensures { result ≡ class_of b }
    {
        self.table[b as usize]
    }

    // How many of the first `w` columns of a part stand before the first that is not permitted, or `w`.
    pub fn permitted_in(&self, part: &[u8], w: usize) -> usize
        requires { w ≤ length part.now }
        ensures { result ≡ permitted_in w part.now }
    {
        for (i, &b) in part[..w].iter().enumerate() {
            if self.class_of(b) == 0 {
                return i;
            }
        }
        w
    }

    // How many columns of a record stand before the first that is not permitted, or 80.
    pub fn permitted_to(&self, rec: &[u8]) -> usize
        requires { Whole rec.now }
        ensures { result ≡ permitted_to rec.now }
    {
        self.permitted_in(rec, 80)
    }
}
